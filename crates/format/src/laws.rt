// Laws of the definitions. Each is the contract of a function that does nothing, so that it can't be dropped or weakened unseen.
ghost use Rattle.format.specs.Sections.{RoundTrip};
ghost use Rattle.format.specs.Sample.{SampleJobs};

/// Encoding and decoding undo each other: a job has one byte string, and a byte string is at most one job.
pub fn round_trip()
    ensures { RoundTrip }
{}

/// Sample jobs, each with its bytes or its answer.
pub fn sample_jobs()
    ensures { SampleJobs }
{}
