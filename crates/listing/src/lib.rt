// The output of the program `scenarios`, line by line: a cursor that writes the first line with the cells filled once, then the line of each index.
#![tactic(auto)]

ghost use Rattle.std.specs.Prelude.{◌≡◌, ◌+◌, ◌*◌, ◌<◌, ◌≤◌, length, MatchOption, MatchResult};
ghost use Rattle.std.proofs.Math.Option.{none, some};
ghost use Rattle.promises.specs.Calls.{count, count_cells};
ghost use Rattle.decoding.specs.Forms.{value_of};
ghost use Rattle.refusal.specs.Numbers.{number_of, place_of, refused_by};
ghost use Rattle.listing.specs.Listing.{asked_in, asked, text, cells_left};
ghost use Rattle.listing.specs.Printing.{OwnedBuffers, WithinLimits, EventsBy, BeginsRefused, BeginsText, LeadsNext, StandsAt, Stands, Moves};

use checks::Rows;
use ranking::Counts;
use refusal::{Fault, Refusal};

// Where a listing stands: the length of the line written last; the index whose line comes next, and how many have one; and what their lines are made from.
#[derive(Clone, Copy, Debug, PartialEq, Eq)]
pub struct Cursor {
    pub length: usize,
    pub index: u64,
    pub lines: u64,
    pub horizon: usize,
    pub states: usize,
    pub start: usize,
}

// The horizon of an `ask` line.
fn asked_in(line: &[u8]) -> Option<usize>
    ensures { value_of result ≡ asked_in line.now }
{
    decoding::number(line.strip_prefix(b"ask\t")?)
}

// What the input asks for: a horizon, and the rig text that follows; none where the first line is no `ask` line.
fn ask(input: &[u8]) -> Option<(usize, &[u8])>
    ensures { MatchOption result (asked input.now ≡ none) (λ p. (asked input.now ≡ some p.0) × (p.1.now ≡ text input.now)) }
{
    let Some((line, text)) = decoding::split_at_byte(input, b'\n') else {
        return None; // the first line is not ended
    };
    Some((asked_in(line)?, text))
}

// A listing that is refused: its only line, written at the front of `line`. (The cursor has all its fields, as `BeginsRefused` fixes them beside a refusal
// too. The line is not written by Display, of which no contract says the bytes.)
fn refuse(refusal: Refusal, line: &mut [u8]) -> Cursor
    requires { 64 ≤ length line.old }
    ensures { BeginsRefused (number_of refusal) (place_of refusal) result line.old line.new }
{
    Cursor {
        length: line::write_numbers(b"no", refusal.number(), refusal.place(), line),
        index: 0,
        lines: 0,
        horizon: 0,
        states: 1,
        start: 0,
    }
}

// The first line for a rig text and a horizon, unless they are refused: N and the passes. The cells and the table are filled.
fn begin_text(
    text: &[u8],
    h: usize,
    cells: &mut [u64],
    table: &mut [u16],
    line: &mut [u8],
) -> Result<Cursor, Refusal>
    requires { OwnedBuffers cells.old table.old line.old }
    ensures begins_text { MatchResult result (λ c. BeginsText text.now h cells.old c line.old line.new cells.new table.new) (λ e. refused_by e ≡ count text.now h cells.old) }
    ensures cells_after { cells.new ≡ count_cells text.now h cells.old }
{
    let loaded = checks::open(text, h as u64, Rows::All, cells.len())?;
    let counted = filling::count_cells(&loaded, h, cells, table)?;
    Ok(Cursor {
        length: line::write_numbers(b"count", counted.count, counted.passes, line),
        index: 0,
        lines: counted.count.min(1000), // the first 1,000 indices, or all if fewer
        horizon: h,
        states: loaded.states,
        start: loaded.start,
    })
}

// Writes the first line of the listing at the front of `line`, and fills the cells and the table for the lines that follow.
// (Three arguments and no struct of them: each goes to another function, and the clauses say what becomes of each.)
pub fn begin(input: &[u8], cells: &mut [u64], table: &mut [u16], line: &mut [u8]) -> Cursor
    requires { OwnedBuffers cells.old table.old line.old }
    ensures stands_at { StandsAt input.now 0 result cells.new table.new line.new }
    ensures cells_after { cells.new ≡ cells_left input.now cells.old }
{
    let Some((h, text)) = ask(input) else {
        return refuse(Refusal::BadLine(Fault::NoForm, 0), line);
    };
    match begin_text(text, h, cells, table, line) {
        Ok(cursor) => cursor,
        Err(refusal) => refuse(refusal, line),
    }
}

// Writes the scenario of index i to the first h bytes of `events`.
fn write_events(counts: &Counts, start: usize, h: usize, i: u64, events: &mut [u8])
    requires { (start < counts.now.states) × (h * counts.now.states ≤ length counts.now.cells.now) × (h ≤ length events.old) }
    ensures { EventsBy counts.now.table.now counts.now.cells.now counts.now.states start h i events.old events.new }
{
    counts.unrank_whole(start, i, &mut events[..h]);
}

// Writes the line of the index that comes next at the front of `line`. Gives the line's length.
fn write_next(c: Cursor, cells: &[u64], table: &[u16; 16384], line: &mut [u8]) -> usize
    requires { WithinLimits c (length cells.now) × (4021 ≤ length line.old) }
    ensures { LeadsNext c cells.now table.now result line.old line.new }
{
    let counts = Counts {
        cells,
        table: &table[..],
        states: c.states,
    };
    let mut events = [0u8; 1000];
    write_events(&counts, c.start, c.horizon, c.index, &mut events);
    line::write_line(c.index, &events[..c.horizon], line)
}

// Writes the next line of the listing at the front of `line`; none where the listing has ended.
pub fn next(c: Cursor, cells: &[u64], table: &[u16; 16384], line: &mut [u8]) -> Option<Cursor>
    requires in_bounds { 4021 ≤ length line.old }
    requires stands { Stands c cells.now table.now line.old }
    ensures { Moves c result cells.now table.now line.old line.new }
{
    if c.lines <= c.index {
        return None;
    }
    Some(Cursor {
        length: write_next(c, cells, table, line),
        index: c.index + 1,
        ..c
    })
}
