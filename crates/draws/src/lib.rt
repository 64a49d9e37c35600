// Draws from a seed, for the shuffle: the raw numbers of SplitMix64, without those that would favour some draws.
//
// The draws are made twice: once to find out whether all can be made, and once to be written. So nothing is written before a refusal, and no
// second buffer is needed.
#![tactic(auto)]

ghost use Rattle.std.specs.Prelude.{◌≡◌, ◌%◌, ◌<◌, ◌≤◌, ◌^◌, length};
ghost use Rattle.shuffle.specs.Outcome.{answer_of};
ghost use Rattle.promises.specs.Draws.{thrown_away, taken, outcome, draws as promised, draws_output};
ghost use Rattle.refusal.specs.Places.{place_in};
ghost use Rattle.draws.specs.Making.{taken_of, first_failed, AllMade};

use refusal::Refusal;

// One draw: the raw number that it takes and the state after it.
#[derive(Clone, Copy)]
struct Draw {
    raw: u64,
    state: u64,
}

// Puts z draws from the seed at the first places of the output, each made of at most `limit` raw numbers.
pub fn draws(n: u64, z: u64, seed: u64, limit: u8, out: &mut [u64]) -> Result<(), Refusal>
    ensures result_value { answer_of result ≡ promised n z seed limit out.old }
    ensures out_after { out.new ≡ draws_output n z seed limit out.old }
{
    if (out.len() as u64) < z {
        return Err(Refusal::ShortOutput);
    }
    if n < z {
        return Err(Refusal::BadDraw(n));
    }
    if let Some(place) = first_failed(n, z, seed, limit) {
        return Err(Refusal::NoDraw(place));
    }
    write_draws(n, z, seed, limit, out);
    Ok(())
}

// The place of the first draw that is not made. The loop counts draws: no buffer is read by i.
fn first_failed(n: u64, z: u64, seed: u64, limit: u8) -> Option<u64>
    requires { z ≤ n }
    ensures { result ≡ place_in z (first_failed z (outcome n z seed limit)) }
{
    let mut state = seed;
    for i in 0..z {
        let Some(draw) = take(n - i, state, limit) else {
            return Some(i);
        };
        state = draw.state;
    }
    None
}

// Writes the draws, all of which are made, by their number, which each of them takes too. One pass for this and `first_failed`, with a
// closure for what is done with each draw, would be no plainer: its contract would have to speak of what the closure wrote.
fn write_draws(n: u64, z: u64, seed: u64, limit: u8, out: &mut [u64])
    requires { (z ≤ n) × (z ≤ length out.old) × AllMade (outcome n z seed limit) }
    ensures { out.new ≡ draws_output n z seed limit out.old }
{
    let mut state = seed;
    for i in 0..z {
        let w = n - i;
        let draw = take(w, state, limit).unwrap();
        out[i as usize] = i + draw.raw % w;
        state = draw.state;
    }
}

// A draw with w to choose from: it takes the first of at most `limit` raw numbers that is not thrown away.
fn take(w: u64, s: u64, limit: u8) -> Option<Draw>
    requires { 0 < w }
    ensures { taken_of result ≡ taken limit w s }
{
    let mut state = s;
    for _ in 0..limit {
        state = splitmix::next_state(state);
        let raw = splitmix::mix(state);
        if !is_thrown(raw, w) {
            return Some(Draw { raw, state });
        }
    }
    None
}

// Whether a raw number is thrown away. Only one below w can be, and for the others the division is spared.
#[tactic(auto, unfolding(promises::specs::Draws::thrown_away))]
fn is_thrown(raw: u64, w: u64) -> bool
    requires { 0 < w }
    ensures { result ≡ thrown_away (2 ^ 64) w raw }
{
    raw < w && raw < remainder(w)
}

// 2^64 mod w. Not inlined, since the compiler else makes sixteen raw numbers at a time where one or two are enough.
#[inline(never)]
fn remainder(w: u64) -> u64
    requires { 0 < w }
    ensures { result ≡ 2 ^ 64 % w }
{
    let less = w.wrapping_neg();
    if less < w { less } else { less % w }
}
