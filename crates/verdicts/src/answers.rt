// What `check` answers, held to what was wanted and counted.
use std::io;

// The refusal of the first n bytes, 0 for none; nothing where there are fewer.
fn answer(s: &[u8], n: usize) -> Option<u32> {
    match refusal::check(s.get(..n)?) {
        Ok(()) => Some(0),
        Err(refusal) => Some(refusal.number()),
    }
}

fn count(counts: &mut [u64], answer: u32) {
    if let Some(count) = counts.get_mut(answer as usize) {
        *count = count.saturating_add(1);
    }
}

// A digit's number; what is none gives a number above those of answers, and is told by it.
fn digit(c: u8) -> u32 {
    u32::from(c.checked_sub(b'0').unwrap_or(9))
}

// The answer to the first n bytes, which were edited at a place. Where there are fewer, 6 is told, which `check` never answers.
pub(crate) fn judge(
    rt: &impl Print,
    s: &[u8],
    n: usize,
    place: usize,
    wanted: u8,
    counts: &mut [u64],
) -> io::Result<()> {
    let got = answer(s, n).unwrap_or(6);
    let wanted = digit(wanted);
    count(counts, got);
    if got != wanted {
        println!(rt; "differs at {place}: {got} for {wanted}")?;
    }
    Ok(())
}

// Ends a line with the counts, which start again.
pub(crate) fn close(rt: &impl Print, counts: &mut [u64]) -> io::Result<()> {
    for count in counts.iter_mut().take(6) {
        print!(rt; " {count}")?;
        *count = 0;
    }
    Ok(())
}
