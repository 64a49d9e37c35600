// Sheets of bench commands: each scenario loads the deepest state that it shares with the one before, runs on from there, and saves on its way.
//
// A sheet is measured before it is written, so that nothing is written where it does not fit.
#![tactic(auto)]

ghost use Rattle.std.specs.Prelude.{◌≡◌, ◌++◌, ◌+◌, ◌*◌, ◌<◌, ◌≤◌, ◌^◌, nat_eq, length, take, drop};
ghost use Rattle.std.specs.Cmp.Lexicographic.{pointwise};
ghost use Rattle.promises.specs.Sheets.{leg as leg_of, previous as previous_of, text, scenario as scenario_of, shared as shared_by, tail as tail_of, sheet_text, sheet_call, sheet_output};
ghost use Rattle.sheets.specs.Writing.{sheet_answer, legs_text, part_of, Measures};

use line::{Count, Front, Sink};
use refusal::Refusal;

// What is told of a sheet that is served: its length, and the events that it runs.
#[derive(Clone, Copy, Debug, PartialEq, Eq)]
pub struct Report {
    pub length: u64,
    pub total: u64,
}

// Writes the sheet of m scenarios of h events, with a slot for each depth that g divides.
pub fn sheet(scenarios: &[u8], m: u64, h: u64, g: u64, out: &mut [u8]) -> Result<Report, Refusal>
    ensures result_value { sheet_answer result ≡ sheet_call m h g scenarios.now out.old }
    ensures out_after { out.new ≡ sheet_output m h g scenarios.now out.old }
{
    if 1000 < h {
        return Err(Refusal::LongHorizon);
    }
    if g == 0 {
        return Err(Refusal::NoSlot);
    }
    let (count, h, g) = (m as usize, h as usize, g as usize);
    if !ranking::fits(count, h, scenarios.len()) {
        return Err(Refusal::ShortOutput);
    }
    // A scenario has a `load` line, and this has seven bytes at least.
    if out.len() / 7 < count {
        return Err(Refusal::ShortOutput);
    }
    let sheet = Scenarios {
        events: scenarios,
        m: count,
        h,
        g,
    };
    let Some(report) = sheet.measure(out.len()) else {
        return Err(Refusal::ShortOutput);
    };
    sheet.write(out);
    Ok(report)
}

// The scenarios of a sheet: m of h events, with a slot for each depth that g divides.
#[derive(Clone, Copy)]
struct Scenarios<'a> {
    events: &'a [u8],
    m: usize,
    h: usize,
    g: usize,
    ghost few: { h ≤ 1000 },
    ghost spaced: { 0 < g },
    ghost enough: { m * h ≤ length events.now },
}

impl Scenarios<'_> {
    // Measures the sheet, up to the first scenario for which there is no room.
    fn measure(&self, room: usize) -> Option<Report>
        ensures { Measures self.now.m self.now.h self.now.g self.now.events.now room result }
    {
        let mut length = 0;
        let mut total = 0;
        for k in 0..self.m {
            let rest = self.runs(k);
            let mut part = Count { bytes: 0 };
            put_part(rest, self.h, self.g, &mut part);
            if room - length < part.bytes {
                return None;
            }
            length += part.bytes;
            total += rest.len();
        }
        Some(Report {
            length: length as u64,
            total: total as u64,
        })
    }

    // Writes the sheet, which fits, at the front of `out`. (A loop of its own: `measure` ends at the first scenario for which there is no room.)
    fn write(&self, out: &mut [u8])
        requires { length (sheet_text self.now.m self.now.h self.now.g self.now.events.now) ≤ length out.old }
        ensures { out.new ≡ sheet_text self.now.m self.now.h self.now.g self.now.events.now ++ drop (length (sheet_text self.now.m self.now.h self.now.g self.now.events.now)) out.old }
    {
        let mut front = Front { out, at: 0 };
        for k in 0..self.m {
            put_part(self.runs(k), self.h, self.g, &mut front);
        }
    }

    // What scenario number k runs: its part after the depth that it loads.
    fn runs(&self, k: usize) -> &[u8]
        requires { k < self.now.m }
        ensures { result.now ≡ tail_of self.now.g (previous_of (scenario_of self.now.h self.now.events.now) k) (scenario_of self.now.h self.now.events.now k) }
    {
        tail(self.previous(k), self.scenario(k), self.g)
    }

    // Scenario number k. It is cut out by its number, since `chunks_exact(h)` asks that h is not 0, and a sheet may have scenarios of no events.
    fn scenario(&self, k: usize) -> &[u8]
        requires { k < self.now.m }
        ensures { result.now ≡ scenario_of self.now.h self.now.events.now k }
    {
        let at = k * self.h;
        &self.events[at..at + self.h]
    }

    // The scenario before number k, and an empty one before the first.
    fn previous(&self, k: usize) -> &[u8]
        requires { k < self.now.m }
        ensures { result.now ≡ previous_of (scenario_of self.now.h self.now.events.now) k }
    {
        if k == 0 {
            return &self.events[..0];
        }
        self.scenario(k - 1)
    }
}

// The part of the new scenario after the depth that it loads. (That g is not 0 stays a clause here and below: these take parts of a scenario, and no
// `Scenarios`.)
fn tail<'p, 'n>(prev: &'p [u8], new: &'n [u8], g: usize) -> &'n [u8]
    requires { 0 < g }
    ensures { result.now ≡ tail_of g prev.now new.now }
{
    let depth = shared(prev, new) / g * g;
    &new[depth..]
}

// How many events the two begin with alike: sixteen at once as long as all of them are, then one by one.
fn shared(prev: &[u8], new: &[u8]) -> usize
    ensures { result ≡ shared_by prev.now new.now }
{
    let from = 16 * alike_blocks(prev, new);
    from + alike_events(&prev[from..], &new[from..])
}

// How many blocks of sixteen events the two begin with alike.
fn alike_blocks(prev: &[u8], new: &[u8]) -> usize
    ensures { (16 * result ≤ length prev.now) × (16 * result ≤ length new.now) × (take (16 * result) prev.now ≡ take (16 * result) new.now) }
{
    let (old_blocks, _) = prev.as_chunks::<16>();
    let (new_blocks, _) = new.as_chunks::<16>();
    let blocks = old_blocks.iter().zip(new_blocks);
    blocks.take_while(|(a, b)| alike(a, b)).count()
}

// Whether two blocks are alike. All sixteen events are looked at, so that none waits for the one before: by `==`, which goes no further than the first
// that differs, a sheet of scenarios that share nearly all took 1.8 times as long.
fn alike(a: &[u8; 16], b: &[u8; 16]) -> bool
    ensures { result ≡ pointwise nat_eq a.now b.now }
{
    let mut same = 0;
    for i in 0..16 {
        same += usize::from(a[i] == b[i]);
    }
    same == 16
}

// How many events the two begin with alike, one by one.
fn alike_events(prev: &[u8], new: &[u8]) -> usize
    ensures { result ≡ shared_by prev.now new.now }
{
    let events = prev.iter().zip(new);
    events.take_while(|(a, b)| a == b).count()
}

// Puts the commands of a scenario of h events, of which `rest` is what it runs.
fn put_part<S: Sink>(rest: &[u8], h: usize, g: usize, out: &mut S)
    requires { (0 < g) × (length rest.now ≤ h) × S.fits out.old (length (text (part_of h g rest.now))) }
    ensures { S.puts out.old (text (part_of h g rest.now)) out.new }
{
    let slot = (h - rest.len()) / g;
    out.put_number(b"load", slot as u64);
    put_legs(rest, g, slot, out);
}

// Puts the commands after the load of a slot: a run up to each next depth, and one to the end.
fn put_legs<S: Sink>(rest: &[u8], g: usize, slot: usize, out: &mut S)
    requires { (0 < g) × (slot + length rest.now < 2 ^ 64) × S.fits out.old (length (legs_text g slot rest.now)) }
    ensures { S.puts out.old (legs_text g slot rest.now) out.new }
{
    // Counted by hand: `slot + 1..` has no end, and the last slot may be the largest number.
    let mut j = slot;
    for run in rest.chunks(g) {
        j += 1;
        put_leg(run, g, j, out);
    }
}

// Puts a run, with the save of slot j where it reaches that slot's depth.
fn put_leg<S: Sink>(run: &[u8], g: usize, j: usize, out: &mut S)
    requires { S.fits out.old (length (text (leg_of g j run.now))) }
    ensures { S.puts out.old (text (leg_of g j run.now)) out.new }
{
    out.put_events(b"run", run);
    if run.len() == g {
        out.put_number(b"save", j as u64);
    }
}
