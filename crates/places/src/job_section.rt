// A section of a job that passed, and the job with its index.
ghost use Rattle.std.specs.Prelude.{◌≡◌};

use codec::Section;
use nest::Job;

#[derive(Clone, Copy)]
pub struct JobSection<'a> {
    pub section: Section<'a>,
    pub job: Job<'a>,
    pub ghost same: { section.bytes.now ≡ job.at.bytes.now },
}
