// Answers requests: each is a job with what to do with it, and the lists that are lent for it as they stand before the call. The reply has the answer
// and the lists as they stand behind it. The tools compare the library with the original Rust and with their own reading through this program.
//
// A request, numbers little-endian:
//
//   what:1 byte     0 check, 1 plan, 2 nest, 3 write
//   job             length:4 bytes, then the bytes
//   for nest        the lent list: length:4 bytes, then its numbers of four bytes
//   for write       the lent lists document, segments, findings and stops, each length:4 bytes, then its items: bytes, numbers of eight bytes,
//                   records of ten such numbers, numbers of eight bytes
//
// A reply: the answer:4 bytes; for write the four counts of eight bytes each (0 where the answer has none); then the items of the lent lists as they
// then stand.
#![tactic(auto)]

use request::{Request, next};
use std::io::{self, BufReader, Write};

mod reply;
mod request;

fn main(rt: HostRuntime) -> io::Result<()> {
    let mut input = BufReader::new(rt.alloc(), rt.reader())?;
    let mut output = io::writer(&rt);
    for _ in 0..u64::MAX {
        let Some(request) = next(rt.alloc(), &mut input)? else {
            break;
        };
        let reply = reply::of(rt.alloc(), request)?;
        output.write_all(&reply)?;
    }
    Ok(())
}
