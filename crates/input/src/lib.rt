// Reading input into a lent buffer.
#![tactic(auto)]

ghost use Rattle.std.specs.Prelude.{◌≡◌, ◌+◌, ◌≤◌, ◌<◌, length, take, drop, IfOk};
ghost use Rattle.std.specs.Io.KnownBytes.{Consumes, IsAtEnd};

use std::io;
use std::io::Read;

// One read behind the first `done` bytes, which stay.
fn read_behind<R: Read>(reader: &mut R, bytes: &mut [u8], done: usize) -> io::Result<usize>
    requires { done < length bytes.old }
    ensures front { take done bytes.new ≡ take done bytes.old }
    ensures fits { IfOk result (λ n. done + n ≤ length bytes.new) }
    ensures read { IfOk result (λ n. Consumes (R.remaining reader.old) (R.remaining reader.new) (take n (drop done bytes.new))) }
    ensures end { IfOk result (λ n. n ≡ 0 → IsAtEnd (R.remaining reader.new)) }
{
    reader.read(&mut bytes[done..])
}

// Reads to the input's end, or until the bytes are full, and gives how many came.
pub fn read_up_to<R: Read>(reader: &mut R, bytes: &mut [u8]) -> io::Result<usize>
    ensures fits { IfOk result (λ n. n ≤ length bytes.new) }
    ensures read { IfOk result (λ n. Consumes (R.remaining reader.old) (R.remaining reader.new) (take n bytes.new)) }
    ensures end { IfOk result (λ n. n < length bytes.new → IsAtEnd (R.remaining reader.new)) }
{
    let mut done = 0;
    // each read tells how far it came
    while done < bytes.len() {
        let n = read_behind(reader, bytes, done)?;
        if n == 0 {
            return Ok(done);
        }
        done += n;
    }
    Ok(done)
}
