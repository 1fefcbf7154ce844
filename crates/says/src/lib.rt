// Where the sections of a job stand, and tests of lists and options, made by tests of their items.
#![tactic(auto)]

pub mod lists;

// Where a test of refusals 3 to 5 begins, it asks that the job isn't broken and its sections not spoilt: `refusal::check`, their one caller, has tested
// that before.
ghost use Rattle.std.specs.Prelude.{◌≡◌, ◌+◌, ◌-◌, length, false};
ghost use Rattle.codec.specs.Codec.{le};
ghost use Rattle.format.specs.Sections.{broken};

// One of the trailer's numbers, of a job that isn't broken: k is its place there.
pub fn start(b: &[u8], k: u8) -> u32
    requires { broken b.now ≡ false }
    ensures { result ≡ le 4 b.now (length b.now - 24 + k) }
{
    let t = b.len() - 24;
    codec::num(b, t + k as usize) as u32
}

// Where the trailer stands.
pub fn trailer(b: &[u8]) -> u32
    requires { broken b.now ≡ false }
    ensures { result ≡ length b.now - 24 }
{
    (b.len() - 24) as u32
}
