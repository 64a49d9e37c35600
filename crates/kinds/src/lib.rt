// The kinds of monitor: what a line that begins one says, each function up to `is_marked` by the kind; then the tables of any kind, and the moves on one event.
#![tactic(auto)]

ghost use Rattle.std.specs.Prelude.{◌≡◌, false, ◌&&◌, [], ℕ, suc, ◌+◌, ◌%◌, ◌≤◌, ◌<◌, pos, neg_ℤ, length, set, leb, ltb, eqb};
ghost use Rattle.lists.specs.Lists.{pick, overwrite};
ghost use Rattle.promises.specs.Text.{bal, states_of, start_of};
ghost use Rattle.promises.specs.Reading as promised;
ghost use Rattle.promises.specs.Rig.{gap_next, reply_next, bal_next, next_of, marked_of};
ghost use Rattle.rig.specs.Record.{stop_index};
ghost use Rattle.kinds.specs.Kinds.{as_kind, InRange, row_at, entry_of, with_rows, kind_moves, kind_stops, with_step, hour_of, with_hours};

use decoding::Kind;
use rig::NO_MOVE;

// The moves of a monitor from one state: on event a to x, on b to y, on any other to z.
#[derive(Clone, Copy)]
struct Row {
    a: usize,
    x: usize,
    b: usize,
    y: usize,
    z: usize,
}

// Whether the signed number x is not 'from lo to hi'.
pub fn outside_signed(lo: i64, hi: i64, x: i64) -> bool
    ensures { result ≡ promised.outsideℤ lo hi x }
{
    !(lo..=hi).contains(&x)
}

// Whether a number of the line is out of its range.
pub fn out_of_range(k: Kind, events: usize) -> bool
    ensures { result ≡ promised.is_out_of_range events (as_kind k) }
{
    match k {
        Kind::Mon(s, start) => !(1..=32).contains(&s) || s <= start,
        Kind::Gap(e, n) => events <= e || !(2..=32).contains(&n),
        Kind::Reply(a, b, lo, hi) => events <= a || events <= b || lo < 1 || hi < lo || 31 < hi,
        Kind::Bal(lo, hi) => outside_signed(-15, 0, lo) || outside_signed(0, 15, hi),
        Kind::Day(t) => !(2..=32).contains(&t),
    }
}

// Whether its a equals its b.
pub fn equal(k: Kind) -> bool
    ensures { result ≡ promised.equal (as_kind k) }
{
    match k {
        Kind::Reply(a, b, _, _) => a == b,
        _ => false,
    }
}

// `InRange` is a clause of those that need it, here and below: each takes the kind apart by a `match`, which a struct around it would make longer.

// How many states a `bal` has: 'It has hi−lo+1 states'.
fn band_states(lo: i64, hi: i64) -> usize
    requires { InRange (bal lo hi) }
    ensures { result ≡ states_of (bal lo hi) }
{
    (hi - lo) as usize + 1
}

// How many states the monitor has.
#[tactic(auto, unfolding(promises::specs::Text::states_of))]
pub fn states(k: Kind) -> usize
    requires { InRange (as_kind k) }
    ensures { result ≡ states_of (as_kind k) }
{
    match k {
        Kind::Mon(s, _) => s,
        Kind::Gap(_, n) => n,
        Kind::Reply(_, _, _, hi) => hi + 1,
        Kind::Bal(lo, hi) => band_states(lo, hi),
        Kind::Day(t) => t,
    }
}

// The state that it starts in.
#[tactic(auto, unfolding(promises::specs::Text::start_of))]
pub fn start(k: Kind) -> usize
    requires { InRange (as_kind k) }
    ensures { result ≡ start_of (as_kind k) }
{
    match k {
        Kind::Mon(_, a) => a,
        Kind::Bal(lo, _) => (0 - lo) as usize, // the difference 0
        _ => 0,
    }
}

// The row of a monitor that moves to x on event e, and on any other to z.
fn event_row(e: usize, x: usize, z: usize) -> Row
    ensures { (u : ℕ) → row_at result u ≡ pick (eqb u e) x z }
{
    Row {
        a: e,
        x,
        b: e,
        y: x,
        z,
    }
}

// The row of a monitor that moves to t on every event.
fn same_row(t: usize) -> Row
    ensures { (u : ℕ) → row_at result u ≡ t }
{
    event_row(0, t, t)
}

// The row of a `gap` in state s: 'The state of `gap` is the number of coming steps that bar e'.
#[tactic(auto, unfolding(promises::specs::Rig::gap_next))]
fn gap_row(e: usize, n: usize, s: usize) -> Row
    requires { 1 ≤ n }
    ensures { (u : ℕ) → row_at result u ≡ gap_next e n s u }
{
    if s == 0 {
        return event_row(e, n - 1, 0);
    }
    event_row(e, n, s - 1) // e is barred
}

// The row of a `reply` in state s: '0 with nothing due, 1 just after a, and one more each step'.
#[tactic(auto, unfolding(promises::specs::Rig::reply_next))]
fn reply_row(a: usize, b: usize, lo: usize, hi: usize, s: usize) -> Row
    requires { (hi ≤ 31) × (s ≤ 31) }
    ensures { (u : ℕ) → row_at result u ≡ reply_next a b lo hi s u }
{
    if s == 0 {
        return event_row(a, 1, 0);
    }
    let barred = hi + 1; // no further a
    let later = s + 1;
    if s < lo {
        return event_row(a, barred, later); // an earlier b settles nothing
    }
    Row {
        a,
        x: barred,
        b,
        y: 0,
        z: later,
    }
}

// Where a `bal` moves from s by a step d: 'state j is the difference lo+j', 'admitted if the running difference stays from lo to hi'. As in `next_of`, the number of
// its states, which is no state, stands for no move.
fn bal_next(lo: i64, hi: i64, d: i64, s: usize) -> usize
    requires { InRange (bal lo hi) × (promised.outsideℤ (neg_ℤ (pos 15)) (pos 15) d ≡ false) × (s ≤ 31) }
    ensures { result ≡ bal_next lo hi d s }
{
    let difference = lo + s as i64 + d;
    if outside_signed(lo, hi, difference) {
        return band_states(lo, hi); // no state
    }
    (difference - lo) as usize
}

// The step after step s of a day of t steps: 'the day repeats'. By a comparison: as a remainder it took a third of the time of reading a `day` line.
fn day_next(t: usize, s: usize) -> usize
    requires { (s < t) × (t ≤ 32) }
    ensures { result ≡ suc s % t }
{
    if s + 1 < t { s + 1 } else { 0 }
}

// Its row in state s, without further lines; a number that is no state where it does not admit the event.
fn row_in(k: Kind, s: usize) -> Row
    requires { InRange (as_kind k) × (s < states_of (as_kind k)) }
    ensures { (u : ℕ) → row_at result u ≡ next_of (as_kind k) [] s u }
{
    match k {
        Kind::Mon(n, _) => same_row(n),
        Kind::Gap(e, n) => gap_row(e, n, s),
        Kind::Reply(a, b, lo, hi) => reply_row(a, b, lo, hi, s),
        Kind::Bal(lo, hi) => same_row(bal_next(lo, hi, 0, s)),
        Kind::Day(t) => same_row(day_next(t, s)),
    }
}

// Whether its state s is marked without further lines.
#[tactic(auto, unfolding(promises::specs::Rig::marked_of))]
fn is_marked(k: Kind, s: usize) -> bool
    ensures { result ≡ marked_of (as_kind k) [] s }
{
    match k {
        Kind::Mon(_, _) => false,
        Kind::Reply(_, _, _, _) => s == 0,
        _ => true,
    }
}

// ---- the tables of a monitor

// A state as an entry of the move table: 255 where it is none of the n. The entry is a byte, and no option, as the record's table is one of bytes (`move_at`).
fn entry(n: usize, t: usize) -> u8
    requires { n ≤ 32 }
    ensures { result ≡ entry_of n t }
{
    if t < n { t as u8 } else { NO_MOVE }
}

// Writes the move x on event e, if there can be such an event, into the row of entries from `at` on.
fn put_move(moves: &mut [u8], at: usize, e: usize, x: u8)
    requires { at + 16 ≤ length moves.old }
    ensures { moves.new ≡ pick (ltb e 16) (set moves.old (at + e) x) moves.old }
{
    if e < 16 {
        moves[at + e] = x;
    }
}

// The moves of the row r, of a monitor with n states, into the sixteen entries from `at` on, one for each event.
fn fill_row(moves: &mut [u8], at: usize, r: Row, n: usize)
    requires { (at + 16 ≤ length moves.old) × (n ≤ 32) }
    ensures { moves.new ≡ overwrite moves.old (λ u. at + u) (λ u. entry_of n (row_at r u)) 16 }
{
    let z = entry(n, r.z);
    moves[at..at + 16].fill(z);
    put_move(moves, at, r.b, entry(n, r.y));
    put_move(moves, at, r.a, entry(n, r.x)); // where both are one event, this move stands
}

// The moves of monitor m from each of its states. By the state's number s, here and below, which is where a move or a mark stands and what it is of.
fn fill_moves(moves: &mut [u8; 2048], m: usize, k: Kind)
    requires place { m < 4 }
    requires in_range { InRange (as_kind k) }
    ensures { moves.new ≡ with_rows moves.old m (as_kind k) (states_of (as_kind k)) }
{
    let n = states(k);
    for s in 0..n {
        let at = (m * 32 + s) * 16;
        fill_row(moves, at, row_in(k, s), n);
    }
}

// The marks of the states of monitor m.
fn fill_marks(stops: &mut [u8; 128], m: usize, k: Kind)
    requires place { m < 4 }
    requires in_range { InRange (as_kind k) }
    ensures { stops.new ≡ overwrite stops.old (stop_index m) (λ s. pick (marked_of (as_kind k) [] s) 1 0) (states_of (as_kind k)) }
{
    for s in 0..states(k) {
        stops[m * 32 + s] = u8::from(is_marked(k, s));
    }
}

// Writes what the line says into the tables of monitor m: all moves and marks of its kind. A `mon` line leaves them as they are.
#[tactic(auto, unfolding(crate::specs::Kinds::kind_moves, crate::specs::Kinds::kind_stops))]
pub fn fill_tables(moves: &mut [u8; 2048], stops: &mut [u8; 128], m: usize, k: Kind)
    requires place { m < 4 }
    requires in_range { InRange (as_kind k) }
    ensures moves_after { moves.new ≡ kind_moves moves.old m (as_kind k) }
    ensures stops_after { stops.new ≡ kind_stops stops.old m (as_kind k) }
{
    if matches!(k, Kind::Mon(_, _)) {
        return;
    }
    fill_moves(moves, m, k);
    fill_marks(stops, m, k);
}

// ---- the moves on one event

// The moves of monitor m, a `bal` from lo to hi, on event e of the step d.
pub fn fill_step(moves: &mut [u8; 2048], m: usize, lo: i64, hi: i64, e: usize, d: i64)
    requires place { (m < 4) × (e < 16) }
    requires in_range { InRange (bal lo hi) × (promised.outsideℤ (neg_ℤ (pos 15)) (pos 15) d ≡ false) }
    ensures { moves.new ≡ with_step moves.old m (bal lo hi) e d }
{
    let n = band_states(lo, hi);
    for j in 0..n {
        let at = (m * 32 + j) * 16 + e;
        moves[at] = entry(n, bal_next(lo, hi, d, j));
    }
}

// The move from step s of a day of t steps, with the hours of one `open` line more: to the next step in them; from another step as before, or none if the line
// is the first of its event.
fn hour(t: usize, a: usize, b: usize, first: bool, s: usize, before: u8) -> u8
    requires { (s < t) × (t ≤ 32) }
    ensures { result ≡ hour_of t a b first s before }
{
    if (a..b).contains(&s) {
        return day_next(t, s) as u8;
    }
    if first { NO_MOVE } else { before }
}

// The moves of monitor m, a `day` of t steps, on event e with one `open` line more: 'Several lines add up', and the first closes the steps not in its hours.
// (The loop of `fill_step` with another entry: one function would take it as a closure, and a clause of it.)
pub fn fill_hours(
    moves: &mut [u8; 2048],
    m: usize,
    t: usize,
    e: usize,
    a: usize,
    b: usize,
    first: bool,
)
    requires { (m < 4) × (e < 16) × (t ≤ 32) }
    ensures { moves.new ≡ with_hours moves.old m t e a b first }
{
    for s in 0..t {
        let at = (m * 32 + s) * 16 + e;
        moves[at] = hour(t, a, b, first, s, moves[at]);
    }
}
