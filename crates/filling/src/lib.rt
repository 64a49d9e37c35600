// A rig pruned, its table filled, its cells counted, and rows 9 and 10: what the calls on a text share once the checks before are passed.
#![tactic(auto)]

ghost use Rattle.std.specs.Prelude.{◌≡◌, ◌+◌, ◌*◌, ◌≤◌, length};
ghost use Rattle.automaton.specs.Pruning.{passes};
ghost use Rattle.rig.specs.Record.{record_automaton};
ghost use Rattle.promises.specs.Calls.{filled};
ghost use Rattle.counting.specs.Tabled.{Tabled};
ghost use Rattle.filling.specs.Filling.{TellsRows, FilledBy, CountedBy};

use checks::Loaded;
use counting::Table;
use refusal::Refusal;

// N, and the number of passes.
#[derive(Clone, Copy, Debug, PartialEq, Eq)]
pub struct Counted {
    pub count: u64,
    pub passes: u64,
}

// Whether row 9 or 10 applies, with the cell of the start, which is N where neither does, and the number of passes.
#[derive(Clone, Copy, Debug, PartialEq, Eq)]
pub struct Filled {
    pub checked: Result<(), Refusal>,
    pub count: u64,
    pub passes: u64,
}

// Prunes the rig, fills the table and the cells of rows 0 to h, and tells rows 9 and 10 by the cell of the start, which is read once. The cell and the
// passes are told beside these rows too.
pub fn fill_cells(loaded: &Loaded, h: usize, cells: &mut [u64], table: &mut [u16]) -> Filled
    requires { ((h + 1) * loaded.now.states ≤ length cells.old) × (length table.old ≡ 16384) }
    ensures { FilledBy (record_automaton loaded.now.rig) loaded.now.states loaded.now.start h result cells.old cells.new table.new }
{
    let passes = prune_and_fill(loaded, h, cells, table);
    let count = cells[h * loaded.states + loaded.start];
    Filled {
        checked: check_count(count),
        count,
        passes: passes as u64,
    }
}

// The same for a call, which tells N and the passes, or row 9 or 10 alone.
pub fn count_cells(
    loaded: &Loaded,
    h: usize,
    cells: &mut [u64],
    table: &mut [u16],
) -> Result<Counted, Refusal>
    requires { ((h + 1) * loaded.now.states ≤ length cells.old) × (length table.old ≡ 16384) }
    ensures { CountedBy (record_automaton loaded.now.rig) loaded.now.states loaded.now.start h result cells.old cells.new table.new }
{
    let filled = fill_cells(loaded, h, cells, table);
    filled.checked?;
    Ok(Counted {
        count: filled.count,
        passes: filled.passes,
    })
}

// Prunes the rig, and fills the table and the cells. Gives the number of passes.
pub fn prune_and_fill(loaded: &Loaded, h: usize, cells: &mut [u64], table: &mut [u16]) -> usize
    requires { ((h + 1) * loaded.now.states ≤ length cells.old) × (length table.old ≡ 16384) }
    ensures value { result ≡ passes (record_automaton loaded.now.rig) }
    ensures cells_after { cells.new ≡ filled (record_automaton loaded.now.rig) h cells.old }
    ensures tabled { Tabled (record_automaton loaded.now.rig) loaded.now.states table.new }
{
    let mut live = [0u8; 1024];
    let passes = pruning::prune(loaded.rig, &mut live, table);
    let table = Table {
        entries: table,
        states: loaded.states,
    };
    counting::fill(cells, &table, &live, h);
    passes
}

// Rows 9 and 10, by the cell of the start.
pub fn check_count(n: u64) -> Result<(), Refusal>
    ensures { TellsRows n result }
{
    if n == 0 {
        return Err(Refusal::NoScenario);
    }
    if n == u64::MAX {
        return Err(Refusal::TooManyScenarios);
    }
    Ok(())
}
