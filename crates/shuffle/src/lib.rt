// The shuffle: swapping the numbers 0 to n - 1 without ever building them, in scratch of twice as many numbers as there are draws.
//
// Step i swaps the places i and draw i, and no later step looks at place i. So the scratch begins with the numbers at the first places, and
// after step i the number that it moved away stays at i. All n places are held so where n is at most twice the number of draws, and else as
// many as there are draws. A draw past the places held finds its number by the last earlier step with the same draw: the rest of the scratch
// links each step with such a draw to the last one before it whose draw falls into the same bucket.
#![tactic(auto)]

ghost use Rattle.std.specs.Prelude.{◌≡◌, ℕ, ◌+◌, ◌*◌, ◌^◌, ◌<◌, ◌≤◌, List, ◌++◌, length, drop, nat_eq, slice_index, EachIndex, MatchOption};
ghost use Rattle.automaton.specs.Shuffle.{Valid, shuffle as swapped};
ghost use Rattle.promises.specs.Calls.{first_bad, bad_draw, shuffle as promised, shuffled as promised_output, ShuffleKeeps};
ghost use Rattle.refusal.specs.Places.{place_in};
ghost use Rattle.shuffle.specs.Outcome.{answer_of};
ghost use Rattle.shuffle.specs.Buckets.{spread, bucket_of};
ghost use Rattle.shuffle.specs.Places.{drawn, latest_step, chained, moved, Linked, Walkable, Held, Prepared, Kept};

use refusal::Refusal;

// Swaps the numbers at i and at draw i, for each draw, and puts out the number that comes to i. Draws and room are checked before
// anything is written.
pub fn shuffle(n: u64, draws: &[u64], scratch: &mut [u64], out: &mut [u64]) -> Result<(), Refusal>
    ensures result_value { answer_of result ≡ promised n draws.now scratch.old out.old }
    ensures out_after { out.new ≡ promised_output n draws.now scratch.old out.old }
    ensures shuffle_keeps { ShuffleKeeps n draws.now scratch.old out.old scratch.new }
{
    let z = draws.len();
    if scratch.len() / 2 < z {
        return Err(Refusal::FewCells);
    }
    if out.len() < z {
        return Err(Refusal::ShortOutput);
    }
    if let Some(place) = first_bad(n, draws) {
        return Err(Refusal::BadDraw(place as u64));
    }
    serve(n, draws, scratch, out);
    Ok(())
}

// The position of the first draw that is out of range.
fn first_bad(n: u64, draws: &[u64]) -> Option<usize>
    ensures { result ≡ place_in (length draws.now) (first_bad (bad_draw n) draws.now) }
{
    draws
        .iter()
        .enumerate()
        .position(|(i, d)| *d < i as u64 || n <= *d)
}

// The shuffle for valid draws.
fn serve(n: u64, draws: &[u64], scratch: &mut [u64], out: &mut [u64])
    requires { (2 * length draws.now ≤ length scratch.old) × (length draws.now ≤ length out.old) × Valid n 0 draws.now }
    ensures out_after { out.new ≡ swapped draws.now ++ drop (length draws.now) out.old }
    ensures kept { Kept draws.now scratch.old scratch.new }
{
    let held = prepare(n, draws, scratch);
    let (numbers, links) = scratch.split_at_mut(held);
    count_up(numbers);
    swap_all(draws, numbers, links, out);
}

// How many places are held; the draws from there on are linked.
fn prepare(n: u64, draws: &[u64], scratch: &mut [u64]) -> usize
    requires { (2 * length draws.now ≤ length scratch.old) × Valid n 0 draws.now }
    ensures prepared { Prepared result draws.now scratch.new }
    ensures kept { Kept draws.now scratch.old scratch.new }
{
    let z = draws.len();
    if n <= 2 * z as u64 {
        return n as usize;
    }
    let (heads, links) = scratch.split_at_mut(z);
    link_all(draws, heads, links);
    z
}

// Links each draw that is not below the number of draws. The heads of the chains stand where the numbers will.
fn link_all(draws: &[u64], heads: &mut [u64], links: &mut [u64])
    requires { (length heads.old ≡ length draws.now) × (length draws.now ≤ length links.old) }
    ensures linked { Linked (length draws.now) draws.now (heads.new ++ links.new) }
    ensures kept { Kept draws.now (heads.old ++ links.old) (heads.new ++ links.new) }
{
    heads.fill(0);
    for (i, d) in draws.iter().enumerate() {
        link(heads, links, i, *d);
    }
}

// Puts step i, with draw d, at the head of its bucket's chain.
#[tactic(auto, using(crate::proofs::Chains::chained_parts, crate::proofs::Chains::chained_near))]
fn link(heads: &mut [u64], links: &mut [u64], i: usize, d: u64)
    requires { (i < length heads.old) × (length heads.old ≤ length links.old) }
    ensures { heads.new ++ links.new ≡ chained (length heads.old) i d (heads.old ++ links.old) }
{
    if heads.len() as u64 <= d {
        let b = bucket(heads.len(), d);
        links[i] = heads[b];
        heads[b] = i as u64 + 1;
    }
}

// The bucket of a draw, one of z.
#[tactic(auto, unfolding(crate::specs::Buckets::bucket_of), using(crate::proofs::Mixing::bucket_below))]
fn bucket(z: usize, d: u64) -> usize
    requires { 0 < z }
    ensures { (result ≡ bucket_of z d) × (result < z) }
{
    let m = spread_bits(d);
    let h = spread_bits((m >> 32) * (m & WORD));
    ((h >> 32) * (z as u64).min(1 << 32) >> 32) as usize
}

// The 32 lower bits.
const WORD: u64 = 0xFFFF_FFFF;

// Every bit of x has a part in the upper half of the result.
#[tactic(auto, unfolding(crate::specs::Buckets::spread))]
fn spread_bits(x: u64) -> u64
    ensures { (result ≡ spread x) × (result < 2 ^ 64) }
{
    ((x >> 32) * 2654435761).wrapping_add((x & WORD) * 2246822519)
}

// Each place its own number.
fn count_up(numbers: &mut [u64])
    ensures { EachIndex numbers.new (λ k. slice_index numbers.new k ≡ k) }
{
    for (i, x) in numbers.iter_mut().enumerate() {
        *x = i as u64;
    }
}

// The swaps, each with its number put out.
fn swap_all(draws: &[u64], numbers: &mut [u64], links: &[u64], out: &mut [u64])
    requires draws_in_bounds { (length draws.now ≤ length out.old) × ((k : ℕ) → k < length draws.now → k ≤ slice_index draws.now k) }
    requires prepared { Prepared (length numbers.old) draws.now (numbers.old ++ links.now) × Held (length numbers.old) draws.now 0 numbers.old }
    ensures { out.new ≡ swapped draws.now ++ drop (length draws.now) out.old }
{
    for (i, d) in draws.iter().enumerate() {
        let number = number_at(draws, numbers, links, i);
        move_number(numbers, i, *d);
        out[i] = number;
    }
}

// The number at draw i, before step i.
fn number_at(draws: &[u64], numbers: &[u64], links: &[u64], i: usize) -> u64
    requires i_in_bounds { (i < length draws.now) × (i ≤ slice_index draws.now i) }
    requires prepared { Prepared (length numbers.now) draws.now (numbers.now ++ links.now) × Held (length numbers.now) draws.now i numbers.now }
    ensures { result ≡ drawn draws.now i }
{
    let d = draws[i];
    if d < numbers.len() as u64 {
        return numbers[d as usize];
    }
    match last_step(draws, links, i) {
        Some(step) => numbers[step],
        None => d,
    }
}

// The last step before step i that has the same draw, by the chain of the draw's bucket. A link is one more than the step it leads to, or 0,
// and no Option: the scratch that C lends holds plain numbers.
fn last_step(draws: &[u64], links: &[u64], i: usize) -> Option<usize>
    requires { (front : List ℕ) × Walkable (length front) draws.now i (front ++ links.now) }
    ensures { MatchOption result (latest_step (nat_eq (slice_index draws.now i)) draws.now i ≡ 0) (λ s. latest_step (nat_eq (slice_index draws.now i)) draws.now i ≡ s + 1) }
{
    let mut link = links[i];
    while 0 < link {
        let step = (link - 1) as usize;
        if draws[step] == draws[i] {
            return Some(step);
        }
        link = links[step];
    }
    None
}

// Moves the number at i to the place d, if that is one of the places held.
#[tactic(auto, unfolding(crate::specs::Places::moved))]
fn move_number(numbers: &mut [u64], i: usize, d: u64)
    requires { i < length numbers.old }
    ensures { numbers.new ≡ moved (length numbers.old) i d numbers.old }
{
    if d < numbers.len() as u64 {
        numbers[d as usize] = numbers[i];
    }
}
