// The stops and segments of a finished job, a line for each item of three numbers.
ghost use Rattle.std.specs.Prelude.{Some};
ghost use Rattle.listing.specs.Lines.{segment_line, stop_line};

use std::{fmt, io};

// A stop: loop, table and row.
#[derive(Clone, Copy)]
struct Stop {
    loop_id: u64,
    table: u64,
    row: u64,
}

impl fmt::Display for Stop {
    ghost output = { λ s. Some (stop_line s.loop_id s.table s.row) };

    fn fmt<W: fmt::Write>(&self, f: &mut fmt::Formatter<W>) -> fmt::Result {
        let Stop {
            loop_id,
            table,
            row,
        } = *self;
        write!(f, "R {loop_id} {table} {row}")
    }
}

// A segment's first trace entry and its row, if it has one: the table's number is one more, or 0.
#[derive(Clone, Copy)]
struct Traced {
    entry: u64,
    table: u64,
    row: u64,
}

impl fmt::Display for Traced {
    ghost output = { λ s. Some (segment_line s.entry s.table s.row) };

    fn fmt<W: fmt::Write>(&self, f: &mut fmt::Formatter<W>) -> fmt::Result {
        let Traced { entry, table, row } = *self;
        match table.checked_sub(1) {
            Some(t) => write!(f, "S {entry} {t} {row}"),
            None => write!(f, "S {entry} - -"),
        }
    }
}

// The first n stops.
pub(crate) fn stops(rt: &impl Print, list: &[u64], n: usize) -> io::Result<()> {
    for stop in list.chunks_exact(3).take(n) {
        if let &[loop_id, table, row] = stop {
            let stop = Stop {
                loop_id,
                table,
                row,
            };
            println!(rt; "{stop}")?;
        }
    }
    Ok(())
}

// The first n segments.
pub(crate) fn segments(rt: &impl Print, list: &[u64], n: usize) -> io::Result<()> {
    for traced in list.chunks_exact(3).take(n) {
        if let &[entry, table, row] = traced {
            let segment = Traced { entry, table, row };
            println!(rt; "{segment}")?;
        }
    }
    Ok(())
}
