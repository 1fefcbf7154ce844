// The records one after another.
use crate::answers::close;
use crate::cursor::{byte, copy, number, plus};
use crate::pieces::composed;
use crate::sweeps::{State, flips, lengths, stamps};
use std::io;

fn job(input: &[u8], at: usize, work: &mut [u8]) -> State {
    let len = number(input, at);
    let from = plus(at, 4);
    copy(input, from, work, 0, len);
    State {
        at: plus(from, len),
        job: from,
        len: len,
    }
}

fn text(rt: &impl Print, input: &[u8], at: usize, n: usize) -> io::Result<()> {
    for k in 0..n {
        rt.write_all(&[byte(input, plus(at, k))])?;
    }
    Ok(())
}

fn name(rt: &impl Print, input: &[u8], at: usize, counts: &mut [u64]) -> io::Result<usize> {
    let n = byte(input, at) as usize;
    text(rt, input, plus(at, 1), n)?;
    rt.write_all(b":")?;
    close(rt, counts)?;
    rt.write_all(b"\n")?;
    Ok(plus(plus(at, 1), n))
}

// The place behind an edit; nothing for an unknown kind.
fn edit(
    rt: &impl Print,
    kind: u8,
    input: &[u8],
    s: State,
    work: &mut [u8],
    counts: &mut [u64],
) -> io::Result<Option<usize>> {
    let next = match kind {
        b'T' => lengths(rt, input, s, work, counts)?,
        b'F' => flips(rt, input, s, work, counts)?,
        b'P' => stamps(rt, input, s, work, counts)?,
        b'S' => composed(rt, input, s, work, counts)?,
        b'N' => name(rt, input, s.at, counts)?,
        _ => return Ok(None),
    };
    Ok(Some(next))
}

fn record(
    rt: &impl Print,
    input: &[u8],
    s: State,
    work: &mut [u8],
    counts: &mut [u64],
) -> io::Result<Option<State>> {
    let kind = byte(input, s.at);
    let at = plus(s.at, 1);
    if kind == b'J' {
        return Ok(Some(job(input, at, work)));
    }
    let next = edit(rt, kind, input, State { at, ..s }, work, counts)?;
    Ok(next.map(|at| State { at, ..s }))
}

// The place behind the last record; nothing where one is of an unknown kind.
fn records(
    rt: &impl Print,
    input: &[u8],
    work: &mut [u8],
    counts: &mut [u64],
) -> io::Result<Option<usize>> {
    let mut s = State {
        at: 0,
        job: 0,
        len: 0,
    };
    // each record takes a byte at least
    for _ in 0..input.len() {
        if s.at >= input.len() {
            return Ok(Some(s.at));
        }
        match record(rt, input, s, work, counts)? {
            Some(next) => s = next,
            None => return Ok(None),
        }
    }
    Ok(Some(s.at))
}

// Every record; `end` where the last one ends with the input.
pub(crate) fn all(rt: &impl Print, input: &[u8]) -> io::Result<()> {
    let mut work = [0u8; 65537];
    let mut counts = [0u64; 8];
    if records(rt, input, &mut work, &mut counts)? == Some(input.len()) {
        rt.write_all(b"end\n")?;
    }
    Ok(())
}
