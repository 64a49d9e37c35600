// Count from the front: the call that keeps two rows of cells and pushes the count of the start forward. It reads what it is lent, refuses what it
// can't serve, and ends; it asks nothing of its caller.
#![tactic(auto)]

ghost use Rattle.std.specs.Prelude.{◌≡◌};
ghost use Rattle.promises.specs.Forward.{forward, ForwardKeeps};
ghost use Rattle.generator.specs.Outcomes.{count_answer};

use checks::Rows;
use counting::Table;
use generator::Counted;
use refusal::Refusal;

// 'A second count begins with 1 at a live start, pushes it forward event by event through live states, and adds all states after h steps.'
pub fn count_forward(text: &[u8], h: u64, cells: &mut [u64]) -> Result<Counted, Refusal>
    ensures result_value { count_answer result ≡ forward text.now h cells.old }
    ensures forward_keeps { ForwardKeeps text.now h cells.old cells.new }
{
    let loaded = checks::open(text, h, Rows::Two, cells.len())?;
    let mut live = [0u8; 1024];
    let mut table = [0u16; 16384];
    let passes = pruning::prune(loaded.rig, &mut live, &mut table);
    let table = Table {
        entries: &table[..],
        states: loaded.states,
    };
    let count = pushing::count_walks(cells, &table, &live, loaded.start, h as usize);
    filling::check_count(count)?;
    Ok(Counted {
        count,
        passes: passes as u64,
    })
}
