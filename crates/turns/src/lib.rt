// What follows a place of a text, as far as a question of the table (crates/deeds) asks for it, and the deed once what follows has decided.
// Read ahead is only where a run, a number or a denominator begins and after a point of a number; a state carries what was found.
// A search finds a place and no more, and what stands there is read anew: so the caller's loop keeps no counter for it (docs/DECISIONS.md, 30).
// A new question is an arm of `answered` and one of `settled_by_number`. A new capital is also a pattern of `is_capital`.
#![tactic(auto)]

ghost use Rattle.std.specs.Prelude.{◌≡◌, get_or};
ghost use Rattle.rules.specs.Castilian.{castilian};
ghost use Rattle.rules.specs.Sorts.{class, is_digit, is_ordinal};
ghost use Rattle.rules.specs.Rows.{sort_in};
ghost use Rattle.rules.proofs.Sides.{form_next, digit_next};
ghost use Rattle.deeds.specs.Numbers.{question_number, deed_number, answer_number};
ghost use Rattle.deeds.specs.Stages.{Supposed};
ghost use Rattle.turns.specs.Ahead.{is_capital, future_at, ends_form};

use deeds::{Act, BEGINS_NUMBER, BEGINS_RUN, Deed, Fault, NUMBER_POINT, ONE_UNDER, Question};

// The code points that reading ahead knows.
const DIGIT_0: u32 = 0x30; // 0

const DIGIT_9: u32 = 0x39; // 9

const FULL_STOP: u32 = 0x2e; // .

const BAR: u32 = 0x2044; // U+2044

const FEMININE: u32 = 0xaa; // ª

const MASCULINE: u32 = 0xba; // º

const CAPITAL_A: u32 = 0x41; // A

const CAPITAL_Z: u32 = 0x5a; // Z

fn is_digit(point: u32) -> bool
    ensures { result ≡ is_digit (class (sort_in castilian point)) }
{
    matches!(point, DIGIT_0..=DIGIT_9)
}

fn is_ordinal(point: u32) -> bool
    ensures { result ≡ is_ordinal (class (sort_in castilian point)) }
{
    matches!(point, MASCULINE | FEMININE)
}

// A to Z, and Á É Í Ñ Ó Ú Ü.
fn is_capital(point: u32) -> bool
    ensures { result ≡ is_capital (class (sort_in castilian point)) }
{
    matches!(
        point,
        CAPITAL_A..=CAPITAL_Z | 0xc1 | 0xc9 | 0xcd | 0xd1 | 0xd3 | 0xda | 0xdc
    )
}

// The code point at a place, and 0, which has no sign, past the end: so no caller tests the length, as in the rules' words (specs/Ahead.antt, `class_at`).
fn point_at(text: &[u32], place: usize) -> u32
    ensures { result ≡ get_or text.now place 0 }
{
    text.get(place).copied().unwrap_or(0)
}

// Does a digit stand at this place?
fn digit_follows(text: &[u32], place: usize) -> bool
    ensures { result ≡ digit_next (future_at castilian text.now place) }
{
    is_digit(point_at(text, place))
}

// Does a form go on at this place, behind its digits: with a full stop and º or ª, or with U+2044 and a digit?
fn ends_form(text: &[u32], place: usize) -> bool
    ensures { result ≡ ends_form castilian text.now place }
{
    match point_at(text, place) {
        FULL_STOP => is_ordinal(point_at(text, place + 1)),
        BAR => is_digit(point_at(text, place + 1)),
        _ => false,
    }
}

// The place behind the digits, if any, from this place on: if a form goes on behind them, it goes on there.
fn behind_digits(text: &[u32], from: usize) -> usize
    ensures { form_next (future_at castilian text.now from) ≡ ends_form castilian text.now result }
{
    for place in from..text.len() {
        if !is_digit(text[place]) {
            return place;
        }
    }
    text.len()
}

// Does a form go on behind the digits, if any, from this place on?
fn form_follows(text: &[u32], from: usize) -> bool
    ensures { result ≡ form_next (future_at castilian text.now from) }
{
    ends_form(text, behind_digits(text, from))
}

// What a question comes to. "If it has two letters or more and all are capitals, 46-46 stands once before it": of a run that goes on with a capital that is
// supposed, and nothing more of it is read; `passes::draw` finds out.
fn answered(text: &[u32], next: usize, question: Question) -> Result<Act, Fault>
    ensures { Supposed (question_number question) (future_at castilian text.now next) (answer_number result) }
{
    match question {
        Question::BeginsRun if is_capital(point_at(text, next)) => Ok(Act::FirstOfCapitals),
        Question::BeginsRun => Ok(Act::CapitalAlone),
        Question::BeginsNumber if form_follows(text, next) => Ok(Act::FirstOfForm),
        Question::BeginsNumber => Ok(Act::FirstOfNumber),
        Question::NumberPoint if digit_follows(text, next) => Ok(Act::POINT_INSIDE),
        Question::NumberPoint => Ok(Act::POINT_AFTER),
        Question::OneUnder if digit_follows(text, next) => Ok(Act::DigitUnder),
        Question::OneUnder => Err(Fault::SharesCells),
    }
}

// The deed, once what follows has decided: `next` is the place after the one at hand.
pub fn settled(text: &[u32], next: usize, deed: Deed) -> Result<Act, Fault>
    ensures { Supposed (deed_number deed) (future_at castilian text.now next) (answer_number result) }
{
    match deed {
        Deed::Write(act) => Ok(act),
        Deed::Ask(question) => answered(text, next, question),
        Deed::Refuse(fault) => Err(fault),
    }
}

// The number of an answer: of what is written, or of the fault.
fn number_of(answer: Result<Act, Fault>) -> usize
    ensures { result ≡ answer_number answer }
{
    match answer {
        Ok(act) => Deed::Write(act).number(),
        Err(fault) => Deed::Refuse(fault).number(),
    }
}

// The same of a deed by its number. A number that is no question's is handed back.
pub fn settled_by_number(text: &[u32], next: usize, deed: usize) -> usize
    ensures { Supposed deed (future_at castilian text.now next) result }
{
    match deed {
        BEGINS_RUN => number_of(answered(text, next, Question::BeginsRun)),
        BEGINS_NUMBER => number_of(answered(text, next, Question::BeginsNumber)),
        NUMBER_POINT => number_of(answered(text, next, Question::NumberPoint)),
        ONE_UNDER => number_of(answered(text, next, Question::OneUnder)),
        _ => deed,
    }
}
