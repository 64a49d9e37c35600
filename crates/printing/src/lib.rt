// Writes the listing of an input, line by line: those of crate `listing`, one after the other, from the first to the end.
// A call that fails has written a front of what it was to write.
#![tactic(auto)]

ghost use Rattle.std.specs.Prelude.{OnOk, OnErr};
ghost use Rattle.std.specs.Io.KnownBytes.{Appends};
ghost use Rattle.listing.specs.Listing.{listing};
ghost use Rattle.printing.specs.Part.{AppendsFront, lent, part};

use std::io;
use std::io::Write;

// Writes all of `bytes`. A write that fails, or takes nothing, ends it. (The library's `write_all` does not tell what was written before an `Err`, as
// the clause `err` does.)
fn write_whole<W: Write>(out: &mut W, bytes: &[u8]) -> io::Result<()>
    ensures ok { OnOk result (Appends (W.contents out.old) (W.contents out.new) bytes.now) }
    ensures err { OnErr result (AppendsFront (W.contents out.old) (W.contents out.new) bytes.now) }
{
    let mut left = bytes;
    while !left.is_empty() {
        let n = out.write(left)?;
        if n == 0 {
            return Err(io::Error::from(io::ErrorKind::WriteZero));
        }
        left = &left[n..];
    }
    Ok(())
}

// Writes a line: the first one, and of those that follow it, which are counted from 1, those past `from` and up to `to`.
// (`count` is 0 for the first line, as `lent`, which the clauses cite, has it.)
fn write_between<W: Write>(
    out: &mut W,
    line: &[u8],
    count: u64,
    from: u64,
    to: u64,
) -> io::Result<()>
    ensures ok { OnOk result (Appends (W.contents out.old) (W.contents out.new) (lent from to count line.now)) }
    ensures err { OnErr result (AppendsFront (W.contents out.old) (W.contents out.new) (lent from to count line.now)) }
{
    if 0 < count && (count <= from || to < count) {
        return Ok(());
    }
    write_whole(out, line)
}

// Prints the first line of the listing, and of the lines that follow it those from `from` to before `to`, counted from 0.
pub fn print_part<W: Write>(out: &mut W, input: &[u8], from: u64, to: u64) -> io::Result<()>
    ensures ok { OnOk result (Appends (W.contents out.old) (W.contents out.new) (part input.now from to)) }
    ensures err { OnErr result (AppendsFront (W.contents out.old) (W.contents out.new) (part input.now from to)) }
{
    let mut cells = [0u64; 8192];
    let mut table = [0u16; 16384];
    let mut line = [0u8; 4096];
    let mut cursor = listing::begin(input, &mut cells, &mut table, &mut line);
    loop {
        write_between(out, &line[..cursor.length], cursor.index, from, to)?;
        let Some(next) = listing::next(cursor, &cells, &table, &mut line) else {
            return Ok(());
        };
        cursor = next;
    }
}

// Prints the whole listing.
pub fn print<W: Write>(out: &mut W, input: &[u8]) -> io::Result<()>
    ensures ok { OnOk result (Appends (W.contents out.old) (W.contents out.new) (listing input.now)) }
    ensures err { OnErr result (AppendsFront (W.contents out.old) (W.contents out.new) (listing input.now)) }
{
    print_part(out, input, 0, 1000)
}
