// The rows of a table, and lines with a text or the reason why there is none.
use std::io;
use texts::Text;
use texts::render::Refused;

// Each row in turn.
pub(crate) fn each<T: Copy, F: Fn(T) -> io::Result<()>>(rows: &[T], row: F) -> io::Result<()>
    requires { F.IsAlwaysCallable row }
{
    for r in rows {
        row(*r)?;
    }
    Ok(())
}

// An element's min or max, 99 for none, as the lines of stdout have it.
pub(crate) fn bound(n: usize) -> Option<usize> {
    if n == 99 { None } else { Some(n) }
}

// A text, or the reason why there is none, to the end of its line.
fn said(rt: &impl Print, said: Result<Text, Refused>) -> io::Result<()> {
    match said {
        Ok(text) => println!(rt; "{text}"),
        Err(why) => println!(rt; "reason {}", why.number()),
    }
}

// A value and an element's max, in a cell and in the envelope.
pub(crate) fn both<
    C: Fn(i32, Option<usize>) -> Result<Text, Refused>,
    E: Fn(i32, Option<usize>) -> Result<Text, Refused>,
>(rt: &impl Print, name: &str, r: [i32; 2], cell: C, envelope: E) -> io::Result<()>
    requires { C.IsAlwaysCallable cell × E.IsAlwaysCallable envelope }
{
    let [value, max] = r;
    let most = usize::try_from(max).ok().and_then(bound);
    print!(rt; "{name} {value} {max}: ")?;
    said(rt, cell(value, most))?;
    print!(rt; "envelope {value} {max}: ")?;
    said(rt, envelope(value, most))
}
