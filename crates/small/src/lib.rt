// Scenarios on the small bench: the call that keeps every sixteenth row of cells and works the others out when they are wanted. It reads what it is lent,
// refuses what it can't serve, and ends; it asks nothing of its caller.
#![tactic(auto)]

ghost use Rattle.std.specs.Prelude.{◌≡◌, ◌*◌, ◌≤◌, length};
ghost use Rattle.rig.specs.Record.{record_automaton};
ghost use Rattle.promises.specs.Small.{small_rows, small, small_output, SmallKeeps};
ghost use Rattle.generator.specs.Outcomes.{list_answer};
ghost use Rattle.small.specs.Cells.{CellsBy};

use checks::{Loaded, Rows};
use counting::Table;
use refusal::Refusal;

// 'Beside the scenarios call we want one that needs (⌊h/16⌋ + 16) × P cells'. It begins as `scenarios` does, by a call and a test, which are shorter than
// a function for both would be.
pub fn scenarios_small(
    text: &[u8],
    h: u64,
    list: &[u64],
    cells: &mut [u64],
    out: &mut [u8],
) -> Result<(), Refusal>
    ensures result_value { list_answer result ≡ small text.now h list.now cells.old out.old }
    ensures small_keeps { SmallKeeps text.now h list.now cells.old out.old cells.new }
    ensures out_after { out.new ≡ small_output text.now h list.now cells.old out.old }
{
    let loaded = checks::open(text, h, Rows::Sixteenths, cells.len())?;
    let h = h as usize;
    if !ranking::fits(list.len(), h, out.len()) {
        return Err(Refusal::ShortOutput);
    }
    let mut table = [0u16; 16384];
    let count = keep_cells(&loaded, h, cells, &mut table);
    filling::check_count(count)?;
    if let Some(at) = ranking::first_not_below(list, count) {
        return Err(Refusal::NoSuchIndex(at as u64));
    }
    let table = Table {
        entries: &table[..],
        states: loaded.states,
    };
    batches::unrank_batches(cells, &table, loaded.start, h, list, out);
    Ok(())
}

// Prunes the rig, fills the table, keeps every sixteenth row, and gives the cell of the start in row h.
fn keep_cells(loaded: &Loaded, h: usize, cells: &mut [u64], table: &mut [u16]) -> u64
    requires { (small_rows h * loaded.now.states ≤ length cells.old) × (length table.old ≡ 16384) }
    ensures { CellsBy (record_automaton loaded.now.rig) loaded.now.states loaded.now.start h result cells.old cells.new table.new }
{
    let mut live = [0u8; 1024];
    pruning::prune(loaded.rig, &mut live, table);
    let table = Table {
        entries: table,
        states: loaded.states,
    };
    keeping::keep_rows(cells, &table, &live, h);
    cells[(h / 16 + h % 16) * loaded.states + loaded.start]
}
