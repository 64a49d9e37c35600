// The four calls. Each reads what it is lent, refuses what it can't serve, and ends; none asks anything of its caller.
#![tactic(auto)]

ghost use Rattle.std.specs.Prelude.{◌≡◌};
ghost use Rattle.promises.specs.Calls.{ShuffleKeeps};
ghost use Rattle.promises.specs.Calls as promised;
ghost use Rattle.shuffle.specs.Outcome.{answer_of as shuffle_answer};
ghost use Rattle.generator.specs.Outcomes.{count_answer, list_answer, index_answer};

use checks::Rows;
pub use filling::Counted;
use ranking::Counts;
use refusal::Refusal;

// 'Count: text, h, cells. Gives N and the passes.'
pub fn count(text: &[u8], h: u64, cells: &mut [u64]) -> Result<Counted, Refusal>
    ensures result_value { count_answer result ≡ promised.count text.now h cells.old }
    ensures cells_after { cells.new ≡ promised.count_cells text.now h cells.old }
{
    let loaded = checks::open(text, h, Rows::All, cells.len())?;
    let mut table = [0u16; 16384];
    filling::count_cells(&loaded, h as usize, cells, &mut table)
}

// 'Scenarios: text, h, a list of indices, cells, output bytes.'
pub fn scenarios(
    text: &[u8],
    h: u64,
    list: &[u64],
    cells: &mut [u64],
    out: &mut [u8],
) -> Result<(), Refusal>
    ensures result_value { list_answer result ≡ promised.scenarios text.now h list.now cells.old out.old }
    ensures cells_after { cells.new ≡ promised.scenarios_cells text.now h list.now cells.old out.old }
    ensures out_after { out.new ≡ promised.written text.now h list.now cells.old out.old }
{
    let loaded = checks::open(text, h, Rows::All, cells.len())?;
    let h = h as usize;
    if !ranking::fits(list.len(), h, out.len()) {
        return Err(Refusal::ShortOutput);
    }
    let mut table = [0u16; 16384];
    let counted = filling::count_cells(&loaded, h, cells, &mut table)?;
    let counts = Counts {
        cells,
        table: &table[..],
        states: loaded.states,
    };
    counts
        .unrank_list(loaded.start, h, counted.count, list, out)
        .map_err(|at| Refusal::NoSuchIndex(at as u64))
}

// 'Index: text, a sequence of event bytes (its length is h), cells. Gives its index.'
pub fn index(text: &[u8], sequence: &[u8], cells: &mut [u64]) -> Result<u64, Refusal>
    ensures result_value { index_answer result ≡ promised.index text.now sequence.now cells.old }
    ensures cells_after { cells.new ≡ promised.index_cells text.now sequence.now cells.old }
{
    let h = sequence.len();
    let loaded = checks::open(text, h as u64, Rows::All, cells.len())?;
    if let Some(at) = rig::first_not_event(sequence, loaded.rig.events) {
        return Err(Refusal::NoEvent(at as u64));
    }
    let mut table = [0u16; 16384];
    filling::count_cells(&loaded, h, cells, &mut table)?;
    let counts = Counts {
        cells,
        table: &table[..],
        states: loaded.states,
    };
    counts
        .rank(loaded.start, sequence)
        .map_err(|at| Refusal::Violation(at as u64))
}

// 'Shuffle: n, a list of z draws, 2 × z scratch numbers, output for z numbers, all 64-bit, n any of them.'
pub fn shuffle_indices(
    n: u64,
    draws: &[u64],
    scratch: &mut [u64],
    out: &mut [u64],
) -> Result<(), Refusal>
    ensures result_value { shuffle_answer result ≡ promised.shuffle n draws.now scratch.old out.old }
    ensures out_after { out.new ≡ promised.shuffled n draws.now scratch.old out.old }
    ensures shuffle_keeps { ShuffleKeeps n draws.now scratch.old out.old scratch.new }
{
    shuffle::shuffle(n, draws, scratch, out)
}
