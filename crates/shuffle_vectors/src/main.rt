// Runs the shuffle on small lists of draws and on lists of 1,000, and writes what it answers and leaves; then the published vectors of SplitMix64 as
// the code makes them, and what the draws call answers and leaves. Scratch begins with 7 everywhere and output with 9, so that what is kept shows.
#![tactic(auto)]

ghost use Rattle.std.specs.Prelude.{◌≤◌};

use refusal::Refusal;
use std::io;

fn main(rt: HostRuntime) -> io::Result<()> {
    run(&rt, 5, &[4, 4, 4], 8, 4)?;
    run(&rt, 0, &[], 1, 1)?;
    let last = u64::MAX - 1;
    run(&rt, u64::MAX, &[last, 1, last, last - 1, 4], 12, 7)?;
    run(&rt, u64::MAX, &[last; 8], 16, 8)?;
    run(&rt, 1000, &[100, 101, 100, 102, 101, 100, 7, 7], 17, 9)?;
    refusals(&rt)?;
    full(&rt)?;
    clustered(&rt)?;
    raws(&rt, 1234567)?;
    seeds(&rt)
}

// Calls that are refused.
fn refusals(rt: &impl Print) -> io::Result<()> {
    run(rt, 2, &[1, 1, 2], 6, 3)?;
    run(rt, 2, &[0, 0], 4, 2)?;
    run(rt, u64::MAX, &[3, u64::MAX], 4, 2)?;
    run(rt, 5, &[9, 9, 9], 5, 2)?;
    run(rt, 5, &[9, 9, 9], 6, 2)
}

// Draws from a seed: served, and refused.
fn seeds(rt: &impl Print) -> io::Result<()> {
    draw(rt, 5, 5, 1234567, 1, 6)?;
    draw(rt, 1, 1, 0, 1, 1)?;
    draw(rt, 0, 0, 0, 0, 1)?;
    draw(rt, u64::MAX, 4, 1234567, 255, 5)?;
    draw(rt, (1 << 63) + 8, 4, 3, 3, 4)?;
    draw(rt, (1 << 63) + 8, 4, 3, 2, 4)?;
    draw(rt, (1 << 63) + 8, 4, 3, 1, 4)?;
    draw(rt, 5, 5, 1234567, 0, 6)?;
    draw(rt, 5, 0, 1234567, 0, 6)?;
    draw(rt, 4, 5, 1234567, 0, 5)?;
    draw(rt, 4, 5, 1234567, 0, 4)
}

// One call, with as much scratch and output as is said: the answer, how much scratch is kept, and the whole output afterwards.
fn run(rt: &impl Print, n: u64, draws: &[u64], scratch_len: usize, out_len: usize) -> io::Result<()>
    requires { (scratch_len ≤ 24) × (out_len ≤ 12) }
{
    let mut scratch = [7; 24];
    let mut out = [9; 12];
    print!(rt; "n {n} draws")?;
    list(rt, draws)?;
    let answered = shuffle::shuffle(n, draws, &mut scratch[..scratch_len], &mut out[..out_len]);
    answer(rt, answered)?;
    print!(rt;
        " kept {} output",
        kept(answered, draws, &scratch[..scratch_len])
    )?;
    list(rt, &out[..out_len])?;
    println!(rt)
}

// One call for draws, with as much output as is said: the answer, and the whole output afterwards.
fn draw(rt: &impl Print, n: u64, z: u64, seed: u64, limit: u8, out_len: usize) -> io::Result<()>
    requires { out_len ≤ 12 }
{
    let mut out = [9; 12];
    let answered = draws::draws(n, z, seed, limit, &mut out[..out_len]);
    print!(rt; "n {n} z {z} seed {seed} limit {limit}")?;
    answer(rt, answered)?;
    print!(rt; " output")?;
    list(rt, &out[..out_len])?;
    println!(rt)
}

// The first five raw numbers of a seed.
fn raws(rt: &impl Print, seed: u64) -> io::Result<()> {
    print!(rt; "seed {seed} raw")?;
    let mut state = seed;
    for _ in 0..5 {
        state = splitmix::next_state(state);
        print!(rt; " {}", splitmix::mix(state))?;
    }
    println!(rt)
}

// A shuffle of as many numbers as there are draws; then how many outputs its inverse takes back, and how many are those that tracing back
// gives.
fn full(rt: &impl Print) -> io::Result<()> {
    let mut draws = [0; 1000];
    let mut scratch = [7; 2003];
    let mut out = [9; 1000];
    spread_draws(&mut draws);
    let answered = shuffle::shuffle(1000, &draws, &mut scratch, &mut out);
    print!(rt; "full")?;
    answer(rt, answered)?;
    println!(rt;
        " kept {} {} {}",
        kept(answered, &draws, &scratch),
        inverted(&out),
        right(&draws, &out)
    )
}

// Draws out of 2^64 - 1 numbers that all fall on fifty places at the end; then how many outputs are those that tracing back gives.
fn clustered(rt: &impl Print) -> io::Result<()> {
    let mut draws = [0; 1000];
    let mut scratch = [7; 2003];
    let mut out = [9; 1000];
    cluster_draws(&mut draws);
    let answered = shuffle::shuffle(u64::MAX, &draws, &mut scratch, &mut out);
    print!(rt; "clustered")?;
    answer(rt, answered)?;
    println!(rt;
        " kept {} {}",
        kept(answered, &draws, &scratch),
        right(&draws, &out)
    )
}

// The answer, parted by blanks (Display parts it by byte 9).
fn answer(rt: &impl Print, answered: Result<(), Refusal>) -> io::Result<()> {
    match answered {
        Ok(()) => print!(rt; " served"),
        Err(refusal) => print!(rt; " no {} {}", refusal.number(), refusal.place()),
    }
}

// How many scratch numbers still are 7: all of them after a refusal, else those past twice the draws.
fn kept(answered: Result<(), Refusal>, draws: &[u64], scratch: &[u64]) -> usize {
    let free = if answered.is_ok() { 2 * draws.len() } else { 0 };
    scratch.iter().skip(free).filter(|x| **x == 7).count()
}

// Each number after a blank.
fn list(rt: &impl Print, numbers: &[u64]) -> io::Result<()> {
    for x in numbers {
        print!(rt; " {x}")?;
    }
    Ok(())
}

// A fixed sequence of numbers that look random.
fn next(x: u64) -> u64 {
    x % 2147483647 * 16807 % 2147483647
}

// Draw i is from i to the last place.
fn spread_draws(draws: &mut [u64]) {
    let n = draws.len();
    let mut x = 1;
    for (i, d) in draws.iter_mut().enumerate() {
        x = next(x);
        *d = i as u64 + x % (n - i) as u64;
    }
}

// Each draw is one of the last fifty places of 2^64 - 1.
fn cluster_draws(draws: &mut [u64]) {
    let mut x = 1;
    for d in draws {
        x = next(x);
        *d = u64::MAX - 1 - x % 50;
    }
}

// How many outputs the inverse takes back to their place.
fn inverted(out: &[u64; 1000]) -> usize {
    let mut inverse = [0; 1000];
    for (i, x) in out.iter().enumerate() {
        if let Some(place) = inverse.get_mut(*x as usize) {
            *place = i;
        }
    }
    out.iter()
        .enumerate()
        .filter(|(i, x)| inverse.get(**x as usize) == Some(i))
        .count()
}

// How many outputs are the number that stands at i after swap i.
fn right(draws: &[u64], out: &[u64]) -> usize {
    out.iter()
        .enumerate()
        .filter(|(i, x)| **x == traced(draws, *i))
        .count()
}

// The number at place i after swap i: each swap, from that one back, tells where the number came from.
fn traced(draws: &[u64], i: usize) -> u64 {
    // Of a part of the draws: `take` of all of them goes over the rest first, when it is turned round.
    let swaps = &draws[..draws.len().min(i.saturating_add(1))];
    swaps
        .iter()
        .enumerate()
        .rev()
        .fold(i as u64, |place, (k, d)| turned(k as u64, *d, place))
}

// The other place of a swap of i and d; any third place itself.
fn turned(i: u64, d: u64, place: u64) -> u64 {
    if place == i {
        d
    } else if place == d {
        i
    } else {
        place
    }
}
