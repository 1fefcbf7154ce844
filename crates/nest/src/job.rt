// A job that passed, with its index. What fills the index asks that the job passed (`Passed`) of its bytes alone: there is no index yet.
ghost use Rattle.nest.specs.Ready.{Ready};

use spec::Indexed;

#[derive(Clone, Copy)]
pub struct Job<'a> {
    pub at: Indexed<'a>,
    pub ghost ready: { Ready at.bytes.now at.index.now },
}
