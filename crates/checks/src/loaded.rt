// A rig that is ready to be counted.
ghost use Rattle.std.specs.Prelude.{◌≡◌, ◌<◌};
ghost use Rattle.rig.specs.Record.{record_automaton, record_start, WellFormed};

use rig::Rig;

// The record of a text, how many joint states it has, and the number of the start.
#[derive(Drop)]
pub struct Loaded {
    pub rig: Rig,
    pub states: usize,
    pub start: usize,
    pub ghost well_formed: { ∥ WellFormed rig ∥₁ },
    pub ghost joint: { states ≡ (record_automaton rig).states },
    pub ghost starts: { start ≡ record_start rig },
    pub ghost start_below: { start < states },
}
