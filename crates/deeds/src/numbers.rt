// The same by numbers, for a caller who keeps states, classes and deeds as numbers (specs/Numbers.antt says whose each is).
ghost use Rattle.std.specs.Prelude.{◌≡◌, ◌≤◌, IsNone, IfSome};
ghost use Rattle.entries.specs.States.{states};
ghost use Rattle.entries.specs.Entries.{classes};
ghost use Rattle.entries.specs.Numbers.{class_index, state_number};
ghost use Rattle.deeds.specs.Stages.{deed_of};
ghost use Rattle.deeds.specs.Numbers.{deed_number};

use crate::{CLASS_PLACES, Deed, Fault, Question, STATE_PLACES, deed_of};
use entries::{Class, State};

// What is written has a way of writing and the state after it in one number: state * WAYS + way.
pub const WAYS: usize = 8;

// The questions, which what follows decides; the least of them. Below it a deed is a way and a state.
pub const QUESTIONS: usize = 88;

pub const BEGINS_RUN: usize = 88;

pub const BEGINS_NUMBER: usize = 89;

pub const NUMBER_POINT: usize = 90;

pub const ONE_UNDER: usize = 91;

// The faults.
pub const NO_SIGN: usize = 92;

pub const OUTSIDE_FORM: usize = 93;

pub const SHARES_CELLS: usize = 94;

impl Deed {
    // Its number.
    pub fn number(self) -> usize
        ensures { result ≡ deed_number self }
    {
        match self {
            Deed::Write(act) => act.then() as usize * WAYS + act.way() as usize,
            Deed::Ask(Question::BeginsRun) => BEGINS_RUN,
            Deed::Ask(Question::BeginsNumber) => BEGINS_NUMBER,
            Deed::Ask(Question::NumberPoint) => NUMBER_POINT,
            Deed::Ask(Question::OneUnder) => ONE_UNDER,
            Deed::Refuse(Fault::NoSign) => NO_SIGN,
            Deed::Refuse(Fault::OutsideForm) => OUTSIDE_FORM,
            Deed::Refuse(Fault::SharesCells) => SHARES_CELLS,
        }
    }
}

// The state of a number, if it is one's.
fn state_of(number: usize) -> Option<State>
    ensures some { IfSome result (λ s. state_number s ≡ number) }
    ensures none { IsNone result → states ≤ number }
{
    match number {
        0 => Some(State::Free),
        1 => Some(State::Capitals),
        2 => Some(State::Mixed),
        3 => Some(State::Number),
        4 => Some(State::Lowered),
        5 => Some(State::Ordinal),
        6 => Some(State::Barred),
        7 => Some(State::Under),
        8 => Some(State::Guarded),
        9 => Some(State::Hyphened),
        10 => Some(State::Dashed),
        _ => None,
    }
}

// The class of a number, if it is one's.
fn class_of(number: usize) -> Option<Class>
    ensures some { IfSome result (λ c. class_index c ≡ number) }
    ensures none { IsNone result → classes ≤ number }
{
    match number {
        0 => Some(Class::AToJ),
        1 => Some(Class::OtherSmall),
        2 => Some(Class::Capital),
        3 => Some(Class::One),
        4 => Some(Class::OtherDigit),
        5 => Some(Class::FullStop),
        6 => Some(Class::Comma),
        7 => Some(Class::Hyphen),
        8 => Some(Class::Dash),
        9 => Some(Class::Bar),
        10 => Some(Class::Masculine),
        11 => Some(Class::Feminine),
        12 => Some(Class::Percent),
        13 => Some(Class::OtherSign),
        14 => Some(Class::Unlisted),
        _ => None,
    }
}

// What the table says of the numbers of a state and a class: the number of a deed. Where there is no such state or class, there is no sign. (States and classes
// are below 16, so that the remainders are they.)
pub fn deed_by_number(state: usize, class: usize) -> usize
    ensures { result ≡ deed_of state class }
{
    match (
        state_of(state % STATE_PLACES),
        class_of(class % CLASS_PLACES),
    ) {
        (Some(state), Some(class)) => deed_of(state, class).number(),
        _ => NO_SIGN,
    }
}
