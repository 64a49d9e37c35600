// Rows 1 to 8 and 16 to 18 of the table of refusals: the text, the horizon and the room for the cells, checked before anything is written.
#![tactic(auto)]

mod loaded;

ghost use Rattle.std.specs.Prelude.{◌≡◌, ◌≤◌};
ghost use Rattle.rig.specs.Record.{WellFormed};
ghost use Rattle.checks.specs.Loading.{rows_for, Loads, Opens, ChecksSizes};

pub use loaded::Loaded;
use refusal::Refusal;
use rig::Rig;

// Which rows of cells a call keeps: all up to the horizon, every sixteenth and fifteen others, or two. No closure: `load` asks nothing of its caller,
// and would have to ask that it may be called.
#[derive(Clone, Copy, Debug, PartialEq, Eq)]
pub enum Rows {
    All,
    Sixteenths,
    Two,
}

impl Rows {
    // How many rows of cells there must be room for.
    #[tactic(auto, unfolding(promises::specs::Small::small_rows, promises::specs::Forward::forward_rows))]
    fn needed(self, h: usize) -> usize
        requires { h ≤ 1000 }
        ensures { result ≡ rows_for self h }
    {
        match self {
            Rows::All => h + 1,
            Rows::Sixteenths => h / 16 + 16,
            Rows::Two => 2,
        }
    }
}

// How many joint states a record has, and the number of the start.
#[derive(Clone, Copy, Debug, PartialEq, Eq)]
pub struct States {
    pub count: usize,
    pub start: usize,
}

// The record of a text, and whether a row applies to a call on it: the record is that of no line where the text itself is refused.
#[derive(Drop)]
pub struct Checked {
    pub rig: Rig,
    pub checked: Result<States, Refusal>,
}

// Rows 1 to 8 and 16 to 18: the text, the horizon, and the room for the cells. The record is told beside a refusal too.
pub fn load(text: &[u8], h: u64, rows: Rows, room: usize) -> Checked
    ensures { Loads text.now (rows_for rows h) h room result }
{
    match reader::read(text) {
        Ok(rig) => check_sizes(rig, h, rows, room),
        Err(refusal) => Checked {
            rig: rig::empty_rig(),
            checked: Err(refusal),
        },
    }
}

// Rows 7 and 8, for a record that was read.
fn check_sizes(rig: Rig, h: u64, rows: Rows, room: usize) -> Checked
    requires { WellFormed rig }
    ensures { ChecksSizes rig (rows_for rows h) h room result }
{
    if 1000 < h {
        return Checked {
            rig, // the text was read
            checked: Err(Refusal::LongHorizon),
        };
    }
    let states = joint::joint_states(&rig);
    if room < rows.needed(h as usize) * states {
        return Checked {
            rig,
            checked: Err(Refusal::FewCells),
        };
    }
    let start = joint::joint_start(&rig);
    Checked {
        rig,
        checked: Ok(States {
            count: states,
            start,
        }),
    }
}

// The same for a call, which tells a refusal alone.
pub fn open(text: &[u8], h: u64, rows: Rows, room: usize) -> Result<Loaded, Refusal>
    ensures { Opens text.now (rows_for rows h) h room result }
{
    let Checked { rig, checked } = load(text, h, rows, room);
    let States { count, start } = checked?;
    Ok(Loaded {
        rig,
        states: count,
        start,
    })
}
