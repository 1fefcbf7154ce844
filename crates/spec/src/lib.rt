// What is asked of a job's spec and of its envelope, read through the index.
#![tactic(auto)]

pub mod elements;
pub mod envelope;
pub mod fill;
pub mod ids;
pub mod loops;
pub mod read;
pub mod region;
pub mod segments;
pub mod tables;
pub mod version;

// A job's bytes and the index of its parts. While the index is filled only parts of it hold, and a reader asks for its own part alone.
#[derive(Clone, Copy)]
pub struct Indexed<'a> {
    pub bytes: &'a [u8],
    pub index: &'a [u16],
}
