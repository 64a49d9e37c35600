// SplitMix64: a state that is added to, and the mixing that makes a raw number of a copy of it.
#![tactic(auto)]

ghost use Rattle.std.specs.Prelude.{◌≡◌, ◌*◌, ◌%◌, ◌^◌};
ghost use Rattle.promises.specs.SplitMix.{next_state, mix as mixed};

// The state that follows s: 'adds 9E3779B97F4A7C15 (hexadecimal) and drops the carry'.
#[tactic(auto, unfolding(promises::specs::SplitMix::next_state))]
pub fn next_state(s: u64) -> u64
    ensures { result ≡ next_state s }
{
    s.wrapping_add(0x9E3779B97F4A7C15)
}

// A product modulo 2^64. (Paper 01 names a helper of the program's own for it.)
fn wrapping_mul(a: u64, b: u64) -> u64
    ensures { result ≡ a * b % 2 ^ 64 }
{
    a.wrapping_mul(b)
}

// The mixing.
#[tactic(auto, unfolding(promises::specs::SplitMix::mix, promises::specs::SplitMix::mix_first, promises::specs::SplitMix::mix_second, promises::specs::SplitMix::mix_third))]
pub fn mix(y: u64) -> u64
    ensures { result ≡ mixed y }
{
    let a = wrapping_mul(y ^ (y >> 30), 0xBF58476D1CE4E5B9);
    let b = wrapping_mul(a ^ (a >> 27), 0x94D049BB133111EB);
    b ^ (b >> 31)
}
