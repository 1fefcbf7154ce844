// A job that passed, with its index, and nest's array: where each row hangs.
ghost use Rattle.walk.specs.Nested.{Nested};

use nest::Job;

#[derive(Clone, Copy)]
pub struct Nest<'a> {
    pub job: Job<'a>,
    pub array: &'a [u32],
    pub ghost nested: { Nested job.at.bytes.now job.at.index.now array.now },
}
