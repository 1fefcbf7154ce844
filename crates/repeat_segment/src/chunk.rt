// A chunk of a repeat table's rows.
ghost use Rattle.std.specs.Prelude.{◌≤◌, length};

use crate::planned::Planned;
use nest::Job;

// The rows of a chunk, and the planned segment that they fill. That the segment is one of the job (`Of`) is asked by what uses it.
#[derive(Clone, Copy)]
pub struct Chunk<'a> {
    pub job: Job<'a>,
    pub segment: Planned,
    pub rows: &'a [u32],
    pub ghost few: { length rows.now ≤ 256 },
}

impl<'a> Chunk<'a> {
    ghost use Rattle.std.specs.Prelude.{◌≡◌};

    // How many rows there are.
    pub fn count(self) -> u32
        ensures { (result ≡ length self.entry.rows.now) × (result ≤ 256) }
    {
        self.rows.len() as u32
    }
}
