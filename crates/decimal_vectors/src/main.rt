// Prints numbers, one on a line: 0, every power of ten, one below and one above each, numbers with zeros inside, and the largest.
#![tactic(auto)]

ghost use Rattle.std.specs.Prelude.{◌≤◌};

use std::io;

fn show(rt: &impl Print, n: u64) -> io::Result<()> {
    let mut line = [0; 21];
    let at = decimal::write(n, &mut line);
    line[at] = b'\n';
    let end = at + 1;
    rt.write_all(&line[..end])
}

// One below n, n, and one above.
fn show_around(rt: &impl Print, n: u64) -> io::Result<()>
    requires { (1 ≤ n) × (n ≤ 18446744073709551614) }
{
    for near in [n - 1, n, n + 1] {
        show(rt, near)?;
    }
    Ok(())
}

// The powers are made by multiplying, apart from the writer's table.
fn show_powers(rt: &impl Print) -> io::Result<()> {
    let mut power: u64 = 1;
    show_around(rt, power)?;
    while let Some(next) = power.checked_mul(10) {
        power = next;
        show_around(rt, power)?;
    }
    Ok(())
}

fn main(rt: HostRuntime) -> io::Result<()> {
    show_powers(&rt)?;
    for n in [
        12345,
        102030405060708090,
        4294967296,
        9223372036854775808,
        18446744073709551614,
        18446744073709551615,
    ] {
        show(&rt, n)?;
    }
    Ok(())
}
