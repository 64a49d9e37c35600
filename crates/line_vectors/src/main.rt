// Prints lines: those of the paper's listing, and some with long numbers, many events and none.
#![tactic(auto)]

ghost use Rattle.std.specs.Prelude.{◌≤◌, length};

use std::io;

fn show(rt: &impl Print, index: u64, events: &[u8]) -> io::Result<()>
    requires { length events.now ≤ 1000 }
{
    let mut out = [0; 4096];
    let n = line::write_line(index, events, &mut out);
    rt.write_all(&out[..n])
}

fn show_numbers(rt: &impl Print, word: &[u8], a: u64, b: u64) -> io::Result<()>
    requires { length word.now ≤ 21 }
{
    let mut out = [0; 64];
    let n = line::write_numbers(word, a, b, &mut out);
    rt.write_all(&out[..n])
}

fn main(rt: HostRuntime) -> io::Result<()> {
    show_numbers(&rt, b"count", 5, 1)?;
    show(&rt, 4, &[1, 0, 1])?;
    show_numbers(&rt, b"no", 2, 0)?;
    show_numbers(&rt, b"", u64::MAX, u64::MAX)?;
    show(&rt, 0, &[])?;
    show(&rt, u64::MAX, &[0, 9, 10, 15, 99, 100, 255])?;
    show(&rt, 999, &[7; 1000])
}
