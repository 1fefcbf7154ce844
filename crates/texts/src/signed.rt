// Signed numbers of 32 bits between bounds.
ghost use Rattle.std.specs.Prelude.{◌≡◌};
ghost use Rattle.texts.specs.Ranged.{ranged_of};

// A number from low to high.
pub fn in_range(d: i32, low: u32, high: u32) -> Option<u32>
    ensures { result ≡ ranged_of low high d }
{
    let n = u32::try_from(d).ok()?;
    (low..=high).contains(&n).then_some(n)
}
