// The data of a job: rows, keys, references and cells of its tables, read through the index.
#![tactic(auto)]

pub mod data;
pub mod fill;
