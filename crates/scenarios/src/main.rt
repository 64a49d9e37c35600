// The program: reads an `ask` line and a rig text from standard input, and prints the listing.
#![tactic(auto)]

ghost use Rattle.std.specs.Prelude.{OnOk, OnErr, IfSome};
ghost use Rattle.std.specs.Io.KnownBytes.{Appends};
ghost use Rattle.listing.specs.Listing.{listing};
ghost use Rattle.printing.specs.Part.{AppendsFront};

use std::io;
use std::io::{Read, Write};

// Prints the listing of all that `from` gives. The 10 bytes of the longest `ask` line and 65,536 bytes of a rig text decide every listing.
// Where a read or a write fails, a front of the listing is written: nothing, where a read does.
fn answer<R: Read, W: Write>(from: &mut R, out: &mut W) -> io::Result<()>
    ensures ok { OnOk result (IfSome (R.remaining from.old)
        (λ input. Appends (W.contents out.old) (W.contents out.new) (listing input))) }
    ensures err { OnErr result (IfSome (R.remaining from.old)
        (λ input. AppendsFront (W.contents out.old) (W.contents out.new) (listing input))) }
{
    let mut input = [0u8; 65546];
    let n = input::read_full(from, &mut input)?;
    printing::print(out, &input[..n])
}

fn main(rt: HostRuntime) -> io::Result<()> {
    answer(&mut rt.stdin(), &mut rt.stdout())
}
