// Why a call serves nothing, and where: the cases of the papers' tables of refusals, with what each names.
#![tactic(auto)]

ghost use Rattle.std.specs.Prelude.{◌≡◌};
ghost use Rattle.refusal.specs.Numbers.{fault_number, number_of, place_of};

use std::error::Error;
use std::fmt;

// What can be wrong with a line of a rig text.
#[derive(Clone, Copy, Debug, PartialEq, Eq)]
pub enum Fault {
    NoForm,
    OutOfRange,
    GivenTwice,
    Misplaced,
    TooManyStates,
    ListedTwice,
    AnswersItself,
    EmptyHours,
}

// Why a call serves nothing. A place counts lines from 1, all else from 0.
#[derive(Clone, Copy, Debug, PartialEq, Eq)]
pub enum Refusal {
    LongText,
    BadLine(Fault, u64),
    LongHorizon,
    FewCells,
    NoScenario,
    TooManyScenarios,
    NoSuchIndex(u64),
    ShortOutput,
    NoEvent(u64),
    Violation(u64),
    BadDraw(u64),
    NoDraw(u64),
    NoSlot,
}

impl Fault {
    // The paper's number of the fault.
    pub fn number(self) -> u64
        ensures { result ≡ fault_number self }
    {
        match self {
            Fault::NoForm => 2,
            Fault::OutOfRange => 3,
            Fault::GivenTwice => 4,
            Fault::Misplaced => 5,
            Fault::TooManyStates => 6,
            Fault::ListedTwice => 16,
            Fault::AnswersItself => 17,
            Fault::EmptyHours => 18,
        }
    }
}

impl Refusal {
    // The paper's number of the refusal.
    pub fn number(self) -> u64
        ensures { result ≡ number_of self }
    {
        match self {
            Refusal::LongText => 1,
            Refusal::BadLine(fault, _) => fault.number(),
            Refusal::LongHorizon => 7,
            Refusal::FewCells => 8,
            Refusal::NoScenario => 9,
            Refusal::TooManyScenarios => 10,
            Refusal::NoSuchIndex(_) => 11,
            Refusal::ShortOutput => 12,
            Refusal::NoEvent(_) => 13,
            Refusal::Violation(_) => 14,
            Refusal::BadDraw(_) => 15,
            Refusal::NoDraw(_) => 19,
            Refusal::NoSlot => 20,
        }
    }

    // Its place, 0 where none is named.
    pub fn place(self) -> u64
        ensures { result ≡ place_of self }
    {
        match self {
            Refusal::BadLine(_, place)
            | Refusal::NoSuchIndex(place)
            | Refusal::NoEvent(place)
            | Refusal::Violation(place)
            | Refusal::BadDraw(place)
            | Refusal::NoDraw(place) => place,
            _ => 0,
        }
    }
}

// As the program prints a refusal: `no`, the number and the place, parted by byte 9.
impl fmt::Display for Refusal {
    fn fmt<W: fmt::Write>(&self, f: &mut fmt::Formatter<W>) -> fmt::Result {
        write!(f, "no\t{}\t{}", self.number(), self.place())
    }
}

impl Error for Refusal {}
