// A 64-bit number as its decimal digits.
#![tactic(auto)]

ghost use Rattle.std.specs.Prelude.{◌≡◌, ◌++◌, ◌≤◌, length, drop};
ghost use Rattle.lists.specs.Decimal.{decimal};
ghost use Rattle.decimal.specs.Powers.{powers};

// The powers of ten that 64 bits hold. The writer has no power from anywhere else.
const POWERS: [u64; 20] = [
    1,
    10,
    100,
    1_000,
    10_000,
    100_000,
    1_000_000,
    10_000_000,
    100_000_000,
    1_000_000_000,
    10_000_000_000,
    100_000_000_000,
    1_000_000_000_000,
    10_000_000_000_000,
    100_000_000_000_000,
    1_000_000_000_000_000,
    10_000_000_000_000_000,
    100_000_000_000_000_000,
    1_000_000_000_000_000_000,
    10_000_000_000_000_000_000,
];

// The table: entry k, from 0, is ten to the power k.
fn powers_of_ten() -> [u64; 20]
    ensures { result ≡ powers }
{
    POWERS
}

// How many digits n has: as many as the place of the first power above n. The table is copied first, since a constant that is searched
// would be stored anew at each turn.
pub fn count_digits(n: u64) -> usize
    ensures { result ≡ length (decimal n) }
{
    let powers = powers_of_ten();
    let above_one = &powers[1..];
    match above_one.iter().position(|&power| n < power) {
        Some(place) => place + 1,
        None => powers.len(),
    }
}

// Writes the digits of n at the front of `out`, the last one first, and gives how many they are; the rest of `out` keeps its contents.
// Twenty bytes are enough for every n.
pub fn write(n: u64, out: &mut [u8]) -> usize
    requires { length (decimal n) ≤ length out.old }
    ensures value { result ≡ length (decimal n) }
    ensures out_after { out.new ≡ decimal n ++ drop (length (decimal n)) out.old }
{
    let digits = count_digits(n);
    let powers = powers_of_ten();
    let ten = powers[1];
    let mut left = n;
    let mut at = digits - 1;
    // The loop goes by what is left, and not by the places, so that a number below ten takes no division.
    while ten <= left {
        out[at] = b'0' + (left % ten) as u8;
        at -= 1;
        left /= ten;
    }
    out[0] = b'0' + left as u8;
    digits
}
