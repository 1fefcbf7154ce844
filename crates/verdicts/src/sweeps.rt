// Edits at every place in turn. `work` holds the job, whose bytes stand in the input at `job`; each edit is undone.
use crate::answers::judge;
use crate::cursor::{byte, copy, plus, put};
use std::io;

// The job with `len` bytes, where it stands in the input, and the record's place.
#[derive(Clone, Copy)]
pub struct State {
    pub at: usize,
    pub job: usize,
    pub len: usize,
}

// Every length.
pub(crate) fn lengths(
    rt: &impl Print,
    input: &[u8],
    s: State,
    work: &[u8],
    counts: &mut [u64],
) -> io::Result<usize> {
    let end = plus(s.len, 1);
    for n in 0..end {
        judge(rt, work, n, n, byte(input, plus(s.at, n)), counts)?;
    }
    Ok(plus(s.at, end))
}

// One edit at every place before `end`. It takes as many bytes as it changes, and its answers stand behind them.
fn sweep<E: Fn(&mut [u8], usize)>(
    rt: &impl Print,
    input: &[u8],
    s: State,
    bytes: usize,
    end: usize,
    work: &mut [u8],
    counts: &mut [u64],
    edit: E,
) -> io::Result<usize>
    requires { E.IsAlwaysCallable edit }
{
    let answers = plus(s.at, bytes);
    for i in 0..end {
        edit(work, i);
        judge(rt, work, s.len, i, byte(input, plus(answers, i)), counts)?;
        copy(input, plus(s.job, i), work, i, bytes);
    }
    Ok(plus(answers, end))
}

// Every byte, with the mask's bits turned over.
pub(crate) fn flips(
    rt: &impl Print,
    input: &[u8],
    s: State,
    work: &mut [u8],
    counts: &mut [u64],
) -> io::Result<usize> {
    sweep(rt, input, s, 1, s.len, work, counts, |w, i| {
        put(w, i, byte(input, plus(s.job, i)) ^ byte(input, s.at));
    })
}

// Four bytes at every place that has room for them.
pub(crate) fn stamps(
    rt: &impl Print,
    input: &[u8],
    s: State,
    work: &mut [u8],
    counts: &mut [u64],
) -> io::Result<usize> {
    let end = s.len.saturating_sub(3);
    sweep(rt, input, s, 4, end, work, counts, |w, i| {
        copy(input, s.at, w, i, 4);
    })
}
