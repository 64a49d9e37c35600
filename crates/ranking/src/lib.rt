// Scenarios by index, indices by scenario, and the list walker, over the cells and the rows of a pruned table. A walk over a row ends at its first
// empty entry.
#![tactic(auto)]

ghost use Rattle.std.specs.Prelude.{◌≡◌, not, ℕ, ◌+◌, ◌-◌, ◌*◌, ◌<◌, ◌≤◌, IfSome, get_or, length, ltb, take, drop};
ghost use Rattle.promises.specs.Calls.{not_below, first_bad};
ghost use Rattle.refusal.specs.Places.{place_in};
ghost use Rattle.ranking.specs.Ranks.{ChosenBy, FoundBy, UnrankedBy, WholeBy, RankedBy, WrittenBy, ListedBy, all_or_place};

use counting::Transition;

// One step of unranking: the event, what is left of the index, and the state that the event leads to.
#[derive(Clone, Copy, Debug, PartialEq, Eq)]
pub struct Choice {
    pub event: u8,
    pub left: u64,
    pub state: usize,
}

// One step of ranking: how many indices lie before those that begin with the event, and the state that the event leads to.
#[derive(Clone, Copy)]
struct Found {
    before: u64,
    state: usize,
}

// The rows of a pruned table of so many states, and rows of cells over it: row r has the count of r events from each state.
// Not over a `counting::Table`, whose entries all lead to states: nothing here asks that of a table.
#[derive(Clone, Copy)]
pub struct Counts<'a> {
    pub cells: &'a [u64],
    pub table: &'a [u16],
    pub states: usize,
    pub ghost few: { states ≤ 1024 },
    pub ghost rows: { states * 16 ≤ length table.now },
}

// What a row holds for y: nothing where y is no state.
fn count_at(row: &[u64], y: usize) -> u64
    ensures { result ≡ get_or row.now y 0 }
{
    row.get(y).copied().unwrap_or(0)
}

impl<'a> Counts<'a> {
    // The cells of row r.
    fn row(&self, r: usize) -> &'a [u64]
        requires { (r + 1) * self.now.states ≤ length self.now.cells.now }
        ensures { result.now ≡ take self.now.states (drop (r * self.now.states) self.now.cells.now) }
    {
        let cells = self.cells;
        let from = r * self.states;
        &cells[from..from + self.states]
    }

    // The entries of the events that may lead on from x.
    fn ways(&self, x: usize) -> &'a [u16]
        requires { x < self.now.states }
        ensures len { length result.now ≡ 16 }
        ensures by_column { (c : ℕ) → c < 16 → get_or result.now c 0 ≡ get_or self.now.table.now (x * 16 + c) 0 }
    {
        let table = self.table;
        &table[x * 16..x * 16 + 16]
    }

    // The same table with the rows from r on.
    fn from_row(&self, r: usize) -> Counts<'a>
        requires { r * self.now.states ≤ length self.now.cells.now }
        ensures cells { result.cells.now ≡ drop (r * self.now.states) self.now.cells.now }
        ensures table { result.table.now ≡ self.now.table.now }
        ensures states { result.states ≡ self.now.states }
    {
        Counts {
            cells: &self.cells[r * self.states..],
            table: self.table,
            states: self.states,
        }
    }

    // The step of unranking from x, with r events left after it: the event that the index i falls in, if it falls in one.
    pub fn choose_event(&self, r: usize, x: usize, i: u64) -> Option<Choice>
        requires { (x < self.now.states) × ((r + 1) * self.now.states ≤ length self.now.cells.now) }
        ensures state_lt_p { IfSome result (λ c. c.state < self.now.states) }
        ensures chosen_by { ChosenBy self.now.table.now (drop (r * self.now.states) self.now.cells.now) self.now.states x i result }
    {
        let row = self.row(r);
        let mut left = i;
        for entry in self.ways(x) {
            let way = Transition::decode(*entry)?;
            let n = count_at(row, way.state);
            if left < n {
                return Some(Choice {
                    event: way.event,
                    left,
                    state: way.state,
                });
            }
            left -= n;
        }
        None
    }

    // Writes the next events of the scenario of index i from x, as many as the part lent has bytes. Gives the state that they lead to, and leaves what is
    // left of the index. The cells begin with the rows of what is left after each of these events, the last event's first.
    pub fn unrank(&self, x: usize, i: &mut u64, out: &mut [u8]) -> usize
        requires { (x < self.now.states) × (length out.old * self.now.states ≤ length self.now.cells.now) }
        ensures upper_bound { result < self.now.states }
        ensures unranked_by { UnrankedBy self.now.table.now self.now.cells.now self.now.states x i.old out.old out.new result i.new }
    {
        // Of a copy that is lent to no other call the fields stay in registers: a tenth faster.
        let counts = *self;
        counts.unrank_on(x, i, out)
    }

    // The same, one event after the other; an index that falls in no event's part ends it.
    fn unrank_on(&self, x: usize, i: &mut u64, out: &mut [u8]) -> usize
        requires { (x < self.now.states) × (length out.old * self.now.states ≤ length self.now.cells.now) }
        ensures upper_bound { result < self.now.states }
        ensures unranked_by { UnrankedBy self.now.table.now self.now.cells.now self.now.states x i.old out.old out.new result i.new }
    {
        if out.is_empty() {
            return x;
        }
        let Some(step) = self.choose_event(out.len() - 1, x, *i) else {
            return x;
        };
        out[0] = step.event;
        *i = step.left;
        self.unrank_on(step.state, i, &mut out[1..])
    }

    // Writes the scenario of index i from x to the part lent, sixty-four events at a time, so that the recursion goes no deeper.
    pub fn unrank_whole(&self, x: usize, i: u64, out: &mut [u8])
        requires { (x < self.now.states) × (length out.old * self.now.states ≤ length self.now.cells.now) }
        ensures { WholeBy self.now.table.now self.now.cells.now self.now.states x i out.old out.new }
    {
        let h = out.len();
        let mut state = x;
        let mut rest = i;
        // Parts by their places: of what is written through `chunks_mut` a proof knows no element.
        for part in 0..h.div_ceil(64) {
            let at = part * 64;
            let to = h.min(at + 64);
            state = self
                .from_row(h - to)
                .unrank(state, &mut rest, &mut out[at..to]);
        }
    }

    // The step of ranking from x, with r events left after it: the event e among the live ones, if it is there, with what stands before it.
    fn find_event(&self, r: usize, x: usize, e: u8) -> Option<Found>
        requires { (x < self.now.states) × ((r + 1) * self.now.states ≤ length self.now.cells.now) }
        ensures state_lt_p { IfSome result (λ f. f.state < self.now.states) }
        ensures found_by { FoundBy self.now.table.now (drop (r * self.now.states) self.now.cells.now) self.now.states x e result }
    {
        let row = self.row(r);
        let mut before: u64 = 0;
        for entry in self.ways(x) {
            let way = Transition::decode(*entry)?;
            if way.event == e {
                return (way.state < self.states).then_some(Found {
                    before,
                    state: way.state,
                });
            }
            before = before.saturating_add(count_at(row, way.state));
        }
        None
    }

    // The index of the sequence s from x, or the place of its first event that is not admitted or leads to a state not live.
    pub fn rank(&self, x: usize, s: &[u8]) -> Result<u64, usize>
        requires { (x < self.now.states) × (length s.now * self.now.states ≤ length self.now.cells.now) }
        ensures { RankedBy self.now.table.now self.now.cells.now self.now.states x s.now result }
    {
        let mut index: u64 = 0;
        let mut at = x;
        for (k, event) in s.iter().enumerate() {
            let found = self.find_event(s.len() - 1 - k, at, *event).ok_or(k)?;
            index = index.saturating_add(found.before);
            at = found.state;
        }
        Ok(index)
    }

    // Writes the scenarios of all indices of the list, each to the h bytes from its place × h.
    fn unrank_all(&self, x: usize, h: usize, list: &[u64], out: &mut [u8])
        requires { (x < self.now.states) × (h * self.now.states ≤ length self.now.cells.now) × (length list.now * h ≤ length out.old) }
        ensures { WrittenBy self.now.table.now self.now.cells.now self.now.states x h list.now out.old out.new }
    {
        // Parts by their places: h may be 0, which `chunks_exact_mut` refuses, and of what is written through it a proof knows no element.
        for (n, i) in list.iter().enumerate() {
            let at = n * h;
            self.unrank_whole(x, *i, &mut out[at..at + h]);
        }
    }

    // The list walker: writes the scenarios of all indices of the list, or gives the place of the first that is not below the count, with nothing written.
    pub fn unrank_list(
        &self,
        x: usize,
        h: usize,
        count: u64,
        list: &[u64],
        out: &mut [u8],
    ) -> Result<(), usize>
        requires { (x < self.now.states) × (h * self.now.states ≤ length self.now.cells.now) × (length list.now * h ≤ length out.old) }
        ensures value { result ≡ all_or_place (length list.now) (first_bad (not_below count) list.now) }
        ensures listed_by { ListedBy self.now.table.now self.now.cells.now self.now.states x h count list.now result out.old out.new }
    {
        if let Some(place) = first_not_below(list, count) {
            return Err(place);
        }
        self.unrank_all(x, h, list, out);
        Ok(())
    }
}

// Whether so many scenarios of h events fit the output; the product itself may be past 64 bits.
pub fn fits(scenarios: usize, h: usize, out: usize) -> bool
    ensures { result ≡ not (ltb out (scenarios * h)) }
{
    scenarios.checked_mul(h).is_some_and(|bytes| bytes <= out)
}

// The place of the first index that is not below n. (`rig::first_not_event` is the same over bytes; one function for both would need a trait for one line.)
pub fn first_not_below(list: &[u64], n: u64) -> Option<usize>
    ensures { result ≡ place_in (length list.now) (first_bad (not_below n) list.now) }
{
    list.iter().position(|i| n <= *i)
}
