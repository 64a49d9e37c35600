// What a line comes to, after the lines before it: the first case that holds of it, or what it changes in the record so far.
#![tactic(auto)]

ghost use Rattle.std.specs.Prelude.{◌≡◌, leb};
ghost use Rattle.lists.specs.Lists.{any};
ghost use Rattle.promises.specs.Reading as promised;
ghost use Rattle.kinds.specs.Kinds.{as_kind, kind_moves, kind_stops};
ghost use Rattle.taking.specs.Taking.{Allowed, case_in, rig_case, rig_sizes, ord_case, kind_case, kind_sizes, kind_counts, kind_starts, go_case, go_moves, stop_case, stop_stops, amp_case, amp_moves, open_case, open_moves, with_given, part_case, part_moves, part_stops, part_given, case_of, sizes_after, moves_after, stops_after, given_after, counts_after, starts_after, only_if};

use decoding::{Form, Kind, Part};
use refusal::Fault;
use rig::NO_MOVE;

// What the lines so far say: E, how many monitors there are, of which kind the latest is, and P.
#[derive(Clone, Copy)]
pub struct Sizes {
    pub events: usize,
    pub monitors: usize,
    pub latest: Option<Kind>,
    pub joint: usize,
}

// The record of the lines so far: its lists are those of the record that is read, and `order` is the list that decoding the line at hand leaves. `given` has at
// m × 16 + e a 1 where an `amp` or `open` line of monitor m names event e, else 0: numbers, and no tests, as `given_at` has them.
#[derive(Drop)]
pub struct Draft {
    pub moves: [u8; 2048],
    pub stops: [u8; 128],
    pub given: [u8; 64],
    pub counts: [u8; 4],
    pub starts: [u8; 4],
    pub order: [u8; 16],
    pub sizes: Sizes,
    pub ghost allowed: { Allowed sizes },
}

// Whether some byte stands at two places.
fn repeats(mut bytes: &[u8]) -> bool
    ensures { result ≡ promised.repeats bytes.now }
{
    while let [first, rest @ ..] = bytes {
        if rest.contains(first) {
            return true;
        }
        bytes = rest;
    }
    false
}

// Whether some byte is no event. (`rig::first_not_event` finds the place of the first, which is not told here; `any` is what the case says.)
fn names_none(bytes: &[u8], events: usize) -> bool
    ensures { result ≡ any (leb events) bytes.now }
{
    bytes.iter().any(|e| events <= usize::from(*e))
}

impl Sizes {
    // `rig`, E: 'the first line and only there', 'E from 1 to 16'.
    #[tactic(auto, unfolding(crate::specs::Taking::rig_case))]
    fn take_rig(&mut self, e: usize) -> Result<(), Fault>
        ensures value { case_in result ≡ rig_case self.old e }
        ensures after { self.new ≡ only_if (rig_case self.old e) (rig_sizes self.old e) self.old }
    {
        if self.events != 0 {
            return Err(Fault::Misplaced); // `rig` later
        }
        if !(1..=16).contains(&e) {
            return Err(Fault::OutOfRange);
        }
        self.events = e;
        Ok(())
    }
}

impl Draft {
    // `ord` and n events, which decoding has left in `order`: 'lists all E events', 'at most one and only second'.
    #[tactic(auto, unfolding(crate::specs::Taking::ord_case))]
    fn take_ord(&self, line: u64, n: usize) -> Result<(), Fault>
        ensures { case_in result ≡ ord_case self.now.order self.now.sizes line n }
    {
        if line != 2 {
            return Err(Fault::Misplaced); // `ord` elsewhere
        }
        if n != self.sizes.events {
            return Err(Fault::NoForm); // the wrong number of fields
        }
        let events = &self.order[..n];
        if names_none(events, n) {
            return Err(Fault::OutOfRange);
        }
        if repeats(events) {
            return Err(Fault::ListedTwice);
        }
        Ok(())
    }

    // A line that begins a monitor, of any kind: 'counts as a `mon` in 3, 5 and 6'; 'One to four monitors', P 'at most 1,024'.
    #[tactic(auto, unfolding(crate::specs::Taking::kind_case))]
    fn take_kind(&mut self, k: Kind) -> Result<(), Fault>
        ensures value { case_in result ≡ kind_case self.old.sizes k }
        ensures moves_after { self.new.moves ≡ only_if (kind_case self.old.sizes k) (kind_moves self.old.moves self.old.sizes.monitors (as_kind k)) self.old.moves }
        ensures stops_after { self.new.stops ≡ only_if (kind_case self.old.sizes k) (kind_stops self.old.stops self.old.sizes.monitors (as_kind k)) self.old.stops }
        ensures given_after { self.new.given ≡ self.old.given }
        ensures counts_after { self.new.counts ≡ only_if (kind_case self.old.sizes k) (kind_counts self.old.counts self.old.sizes k) self.old.counts }
        ensures starts_after { self.new.starts ≡ only_if (kind_case self.old.sizes k) (kind_starts self.old.starts self.old.sizes k) self.old.starts }
        ensures order_after { self.new.order ≡ self.old.order }
        ensures sizes_after { self.new.sizes ≡ only_if (kind_case self.old.sizes k) (kind_sizes self.old.sizes k) self.old.sizes }
    {
        let Sizes {
            events,
            monitors: m,
            joint,
            ..
        } = self.sizes;
        if events == 0 {
            return Err(Fault::Misplaced); // first line not `rig`
        }
        if kinds::out_of_range(k, events) || 4 <= m {
            return Err(Fault::OutOfRange); // or a fifth monitor
        }
        if kinds::equal(k) {
            return Err(Fault::AnswersItself);
        }
        let n = kinds::states(k);
        let joint = joint * n;
        if 1024 < joint {
            return Err(Fault::TooManyStates);
        }
        kinds::fill_tables(&mut self.moves, &mut self.stops, m, k);
        self.counts[m] = n as u8;
        self.starts[m] = kinds::start(k) as u8;
        self.sizes = Sizes {
            events,
            monitors: m + 1,
            latest: Some(k),
            joint,
        };
        Ok(())
    }

    // `go`, s, e, t: 'the latest monitor moves from s to t on event e'. A move that stands already is seen in the table.
    #[tactic(auto, unfolding(crate::specs::Taking::go_case, promises::specs::Text::states_of))]
    fn take_go(&mut self, s: usize, e: usize, t: usize) -> Result<(), Fault>
        ensures value { case_in result ≡ go_case self.old.moves self.old.sizes s e t }
        ensures after { self.new ≡ record self.old { moves = only_if (go_case self.old.moves self.old.sizes s e t) (go_moves self.old.moves self.old.sizes s e t) self.old.moves } }
    {
        let Some(Kind::Mon(states, _)) = self.sizes.latest else {
            return Err(Fault::Misplaced);
        };
        if states <= s || self.sizes.events <= e || states <= t {
            return Err(Fault::OutOfRange);
        }
        let at = ((self.sizes.monitors - 1) * 32 + s) * 16 + e;
        if self.moves[at] != NO_MOVE {
            return Err(Fault::GivenTwice); // s and e again
        }
        self.moves[at] = t as u8;
        Ok(())
    }

    // `stop`, s: 'marks a state of the latest monitor'. A state that is marked already is seen in the list.
    #[tactic(auto, unfolding(crate::specs::Taking::stop_case, promises::specs::Text::states_of))]
    fn take_stop(&mut self, s: usize) -> Result<(), Fault>
        ensures value { case_in result ≡ stop_case self.old.stops self.old.sizes s }
        ensures after { self.new ≡ record self.old { stops = only_if (stop_case self.old.stops self.old.sizes s) (stop_stops self.old.stops self.old.sizes s) self.old.stops } }
    {
        let Some(Kind::Mon(states, _)) = self.sizes.latest else {
            return Err(Fault::Misplaced);
        };
        if states <= s {
            return Err(Fault::OutOfRange);
        }
        let at = (self.sizes.monitors - 1) * 32 + s;
        if self.stops[at] != 0 {
            return Err(Fault::GivenTwice); // marked twice
        }
        self.stops[at] = 1;
        Ok(())
    }

    // `amp`, e, d: 'gives event e a signed step d' in the latest monitor, whose moves on e are then those of this step. An event that has one already is seen in
    // the list.
    #[tactic(auto, unfolding(crate::specs::Taking::amp_case))]
    fn take_amp(&mut self, e: usize, d: i64) -> Result<(), Fault>
        ensures value { case_in result ≡ amp_case self.old.given self.old.sizes e d }
        ensures after { self.new ≡ record self.old { moves = only_if (amp_case self.old.given self.old.sizes e d) (amp_moves self.old.moves self.old.sizes e d) self.old.moves; given = only_if (amp_case self.old.given self.old.sizes e d) (with_given self.old.given self.old.sizes e) self.old.given } }
    {
        let Some(Kind::Bal(lo, hi)) = self.sizes.latest else {
            return Err(Fault::Misplaced);
        };
        if self.sizes.events <= e || kinds::outside_signed(-15, 15, d) {
            return Err(Fault::OutOfRange);
        }
        let m = self.sizes.monitors - 1;
        let at = m * 16 + e;
        if self.given[at] != 0 {
            return Err(Fault::GivenTwice);
        }
        self.given[at] = 1;
        kinds::fill_step(&mut self.moves, m, lo, hi, e, d);
        Ok(())
    }

    // `open`, e, a, b: admits e 'at steps a up to but not including b' of the latest monitor. The first line of an event, which closes its other steps, is seen in
    // the list.
    #[tactic(auto, unfolding(crate::specs::Taking::open_case, promises::specs::Text::states_of))]
    fn take_open(&mut self, e: usize, a: usize, b: usize) -> Result<(), Fault>
        ensures value { case_in result ≡ open_case self.old.sizes e a b }
        ensures after { self.new ≡ record self.old { moves = only_if (open_case self.old.sizes e a b) (open_moves self.old.moves self.old.given self.old.sizes e a b) self.old.moves; given = only_if (open_case self.old.sizes e a b) (with_given self.old.given self.old.sizes e) self.old.given } }
    {
        let Some(Kind::Day(t)) = self.sizes.latest else {
            return Err(Fault::Misplaced);
        };
        if self.sizes.events <= e || t < b {
            return Err(Fault::OutOfRange);
        }
        if b <= a {
            return Err(Fault::EmptyHours);
        }
        let m = self.sizes.monitors - 1;
        let at = m * 16 + e;
        kinds::fill_hours(&mut self.moves, m, t, e, a, b, self.given[at] == 0);
        self.given[at] = 1;
        Ok(())
    }

    // A line of the latest monitor.
    fn take_part(&mut self, p: Part) -> Result<(), Fault>
        ensures value { case_in result ≡ part_case self.old.moves self.old.stops self.old.given self.old.sizes p }
        ensures after { self.new ≡ record self.old { moves = only_if (part_case self.old.moves self.old.stops self.old.given self.old.sizes p) (part_moves self.old.moves self.old.given self.old.sizes p) self.old.moves; stops = only_if (part_case self.old.moves self.old.stops self.old.given self.old.sizes p) (part_stops self.old.stops self.old.sizes p) self.old.stops; given = only_if (part_case self.old.moves self.old.stops self.old.given self.old.sizes p) (part_given self.old.given self.old.sizes p) self.old.given } }
    {
        match p {
            Part::Go(s, e, t) => self.take_go(s, e, t),
            Part::Stop(s) => self.take_stop(s),
            Part::Amp(e, d) => self.take_amp(e, d),
            Part::Open(e, a, b) => self.take_open(e, a, b),
        }
    }

    // One line more, of this number, by its form.
    pub fn take_line(&mut self, line: u64, form: Option<Form>) -> Result<(), Fault>
        ensures value { case_in result ≡ case_of self.old.moves self.old.stops self.old.given self.old.order self.old.sizes line form }
        ensures moves_after { self.new.moves ≡ only_if (case_of self.old.moves self.old.stops self.old.given self.old.order self.old.sizes line form) (moves_after self.old.moves self.old.given self.old.sizes form) self.old.moves }
        ensures stops_after { self.new.stops ≡ only_if (case_of self.old.moves self.old.stops self.old.given self.old.order self.old.sizes line form) (stops_after self.old.stops self.old.sizes form) self.old.stops }
        ensures given_after { self.new.given ≡ only_if (case_of self.old.moves self.old.stops self.old.given self.old.order self.old.sizes line form) (given_after self.old.given self.old.sizes form) self.old.given }
        ensures counts_after { self.new.counts ≡ only_if (case_of self.old.moves self.old.stops self.old.given self.old.order self.old.sizes line form) (counts_after self.old.counts self.old.sizes form) self.old.counts }
        ensures starts_after { self.new.starts ≡ only_if (case_of self.old.moves self.old.stops self.old.given self.old.order self.old.sizes line form) (starts_after self.old.starts self.old.sizes form) self.old.starts }
        ensures order_after { self.new.order ≡ self.old.order }
        ensures sizes_after { self.new.sizes ≡ only_if (case_of self.old.moves self.old.stops self.old.given self.old.order self.old.sizes line form) (sizes_after self.old.sizes form) self.old.sizes }
    {
        match form {
            Some(Form::Rig(e)) => self.sizes.take_rig(e),
            Some(Form::Ord(n)) => self.take_ord(line, n),
            Some(Form::Begins(k)) => self.take_kind(k),
            Some(Form::Continues(p)) => self.take_part(p),
            None => Err(Fault::NoForm),
        }
    }
}
