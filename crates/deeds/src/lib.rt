// What is done at a place of a text, by its state and the class of its code point, as a table (`table`); and the ways of writing, the deeds, the questions
// and the faults, by name. A question is decided by what follows: crates/turns. The same by numbers: src/numbers.rt.
// A new state or class is added in tools/deeds.txt; a new deed is a name here and in specs/Acts.antt and specs/Numbers.antt, and a line of tools/deeds.txt; a new
// state, class, question or fault has its number in src/numbers.rt too.
#![tactic(auto)]

ghost use Rattle.std.specs.Prelude.{◌≡◌, ◌/◌, ◌%◌};
ghost use Rattle.entries.specs.Numbers.{class_index, state_number};
ghost use Rattle.deeds.specs.Acts.{ways};
ghost use Rattle.deeds.specs.Stages.{deed_of};
ghost use Rattle.deeds.specs.Numbers.{way_index, act_number, deed_number};

use entries::{Class, State};

mod numbers;
mod table;

pub use numbers::{
    BEGINS_NUMBER, BEGINS_RUN, NO_SIGN, NUMBER_POINT, ONE_UNDER, OUTSIDE_FORM, QUESTIONS,
    SHARES_CELLS, WAYS, deed_by_number,
};

// The table has a row for each state: how many classes and how many states there is room for.
const CLASS_PLACES: usize = 16;

const STATE_PLACES: usize = 16;

// The ways of writing: its own cells; after 46; after 46-46; after 5; after 3456; the lower digit after 3456; the lower digit; no cell, though
// it has one.
#[derive(Clone, Copy, PartialEq, Eq)]
pub enum Way {
    Bare,
    OneCapital,
    AllCapitals,
    Separated,
    FirstDigit,
    FirstLower,
    Lower,
    Silent,
}

// What is written: a way of writing and the state after it. No two are the same way and state, so an act is known by its number (proofs/Unique.antt).
#[derive(Clone, Copy, PartialEq, Eq)]
pub enum Act {
    Sign,
    Letter,
    SeparatedLetter,
    CapitalAlone,
    FirstOfCapitals,
    CapitalOfMany,
    FirstOfNumber,
    Digit,
    FirstOfForm,
    LowerDigit,
    StopOfOrdinal,
    FeminineMark,
    BarOfFraction,
    DigitUnder,
    TheHyphen,
    TheDash,
}

// The questions, which what follows decides.
#[derive(Clone, Copy, PartialEq, Eq)]
pub enum Question {
    BeginsRun,
    BeginsNumber,
    NumberPoint,
    OneUnder,
}

// The faults.
#[derive(Clone, Copy, PartialEq, Eq)]
pub enum Fault {
    NoSign,
    OutsideForm,
    SharesCells,
}

// What the table says of a state and a class.
#[derive(Clone, Copy, PartialEq, Eq)]
pub enum Deed {
    Write(Act),
    Ask(Question),
    Refuse(Fault),
}

impl Act {
    // A point or comma inside a number is written as a digit is, and one that ends it as ª is: each is one value under two names.
    pub const POINT_INSIDE: Act = Act::Digit;

    pub const POINT_AFTER: Act = Act::FeminineMark;

    // How it is written.
    pub fn way(self) -> Way
        ensures { way_index result ≡ act_number self % ways }
    {
        match self {
            Act::CapitalAlone => Way::OneCapital,
            Act::FirstOfCapitals => Way::AllCapitals,
            Act::SeparatedLetter => Way::Separated,
            Act::FirstOfNumber => Way::FirstDigit,
            Act::FirstOfForm => Way::FirstLower,
            Act::LowerDigit => Way::Lower,
            Act::StopOfOrdinal => Way::Silent,
            _ => Way::Bare,
        }
    }

    // The state after it.
    pub fn then(self) -> State
        ensures { state_number result ≡ act_number self / ways }
    {
        match self {
            Act::Sign => State::Free,
            Act::Letter | Act::SeparatedLetter | Act::CapitalAlone => State::Mixed,
            Act::FirstOfCapitals | Act::CapitalOfMany => State::Capitals,
            Act::FirstOfNumber | Act::Digit => State::Number,
            Act::FeminineMark => State::Guarded,
            Act::FirstOfForm | Act::LowerDigit => State::Lowered,
            Act::StopOfOrdinal => State::Ordinal,
            Act::BarOfFraction => State::Barred,
            Act::DigitUnder => State::Under,
            Act::TheHyphen => State::Hyphened,
            Act::TheDash => State::Dashed,
        }
    }
}

// What the table says of a state and a class. (The place is one number, so that it is one jump to the code of the deed, whatever state and class it follows from: of a
// `match` on both the compiler makes one by the state and one by the class. Both numbers are below 16, so that the remainders are they.)
#[tactic(auto, unfolding(crate::specs::Stages::deed_of))]
pub fn deed_of(state: State, class: Class) -> Deed
    ensures { deed_number result ≡ deed_of (state_number state) (class_index class) }
{
    table::deed_at(state as usize % STATE_PLACES * CLASS_PLACES + class as usize % CLASS_PLACES)
}
