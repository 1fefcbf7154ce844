// Byte strings made of pieces.
use crate::answers::judge;
use crate::cursor::{byte, copy, fill, number, plus};
use crate::sweeps::State;
use std::io;

// The next piece's place, and the length of what is made so far.
#[derive(Clone, Copy)]
pub struct Made {
    pub at: usize,
    pub len: usize,
}

fn of_job(input: &[u8], job: usize, m: Made, work: &mut [u8]) -> Made {
    let from = number(input, plus(m.at, 1));
    let n = number(input, plus(m.at, 5));
    copy(input, plus(job, from), work, m.len, n);
    Made {
        at: plus(m.at, 9),
        len: plus(m.len, n),
    }
}

fn of_bytes(input: &[u8], m: Made, work: &mut [u8]) -> Made {
    let n = number(input, plus(m.at, 1));
    copy(input, plus(m.at, 5), work, m.len, n);
    Made {
        at: plus(plus(m.at, 5), n),
        len: plus(m.len, n),
    }
}

fn of_one(input: &[u8], m: Made, work: &mut [u8]) -> Made {
    let n = number(input, plus(m.at, 1));
    fill(work, m.len, n, byte(input, plus(m.at, 5)));
    Made {
        at: plus(m.at, 6),
        len: plus(m.len, n),
    }
}

fn piece(input: &[u8], job: usize, m: Made, work: &mut [u8]) -> Made {
    match byte(input, m.at) {
        b'C' => of_job(input, job, m, work),
        b'B' => of_bytes(input, m, work),
        b'R' => of_one(input, m, work),
        _ => Made {
            at: plus(m.at, 1),
            len: m.len,
        },
    }
}

// The pieces from a place to the point that ends them.
fn pieces(input: &[u8], job: usize, at: usize, work: &mut [u8]) -> Made {
    let mut m = Made { at: at, len: 0 };
    for _ in 0..input.len() {
        if byte(input, m.at) == b'.' {
            return m;
        }
        m = piece(input, job, m, work);
    }
    m
}

// A byte string of pieces, its answer, and the job again.
pub(crate) fn composed(
    rt: &impl Print,
    input: &[u8],
    s: State,
    work: &mut [u8],
    counts: &mut [u64],
) -> io::Result<usize> {
    let m = pieces(input, s.job, s.at, work);
    judge(rt, work, m.len, s.at, byte(input, plus(m.at, 1)), counts)?;
    copy(input, s.job, work, 0, s.len);
    Ok(plus(m.at, 2))
}
