// Reads a reader until a buffer is full or the reader ends.
#![tactic(auto)]

ghost use Rattle.std.specs.Prelude.{◌≤◌, ◌<◌, length, take, IfOk, OnErr};
ghost use Rattle.std.specs.Io.KnownBytes.{Consumes, IsAtEnd};
ghost use Rattle.input.specs.Fronts.{ConsumesFront};

use std::io;
use std::io::Read;

// Fills `buf` from the front until it is full or `from` ends, and gives how many bytes it put there: those that `from` gave, in their order.
// The first read that fails ends it with that read's error; what was read before stands at the front of `buf`.
// (A loop of its own: the library's `read_exact` gives no length where the reader ends early, and its `read_to_end` wants a heap, which no library crate has.)
pub fn read_full<R: Read>(from: &mut R, buf: &mut [u8]) -> io::Result<usize>
    ensures within { IfOk result (λ n. n ≤ length buf.new) }
    ensures bytes { IfOk result (λ n. Consumes (R.remaining from.old) (R.remaining from.new) (take n buf.new)) }
    ensures end { IfOk result (λ n. n < length buf.new → IsAtEnd (R.remaining from.new)) }
    ensures err { OnErr result (ConsumesFront (R.remaining from.old) (R.remaining from.new) buf.new) }
{
    let mut done = 0;
    while done < buf.len() {
        let n = from.read(&mut buf[done..])?;
        if n == 0 {
            return Ok(done);
        }
        done += n;
    }
    Ok(done)
}
