// The boundary: what C and Rust link (include/omdurgash.h). Numbers and slices only; each function is thin over a proved one.
#![tactic(auto)]

ghost use Rattle.std.specs.Prelude.{◌≡◌};
ghost use Rattle.rules.specs.Castilian.{castilian};
ghost use Rattle.desk.specs.Shows.{shown_of, Shows, read_of, ShowsRead, points_of, still_of, sign_of, ShowsSign};

use readings::NO_POINT;
use transcriber::Refusal;

// What the desk shows. number 0: done, and second is the count of what was written. Any other number is a refusal of paper 01's table, and second its
// second number.
#[repr(C)]
#[derive(Clone, Copy, PartialEq, Eq)]
pub struct Shown {
    pub number: usize,
    pub second: usize,
}

// What a step shows. number 0: second is how many code points, 1 or 2, or 0 where no sign starts at the place; `first` and `then` are the code points, and
// NO_POINT where there is none; `next` is the place after the sign, or the place itself. Any other number is a refusal, and the place stays.
// (Numbers, and no Option or Result, since C reads them.)
#[repr(C)]
#[derive(Clone, Copy)]
pub struct Sign {
    pub number: usize,
    pub second: usize,
    pub first: u32,
    pub then: u32,
    pub next: usize,
}

// The numbers of paper 01's table, "Numbers the desk shows". DONE is that of no refusal.
pub const DONE: usize = 0;

pub const TOO_LONG: usize = 1;

pub const NO_SIGN: usize = 2;

pub const PAIR_BROKEN: usize = 3;

pub const OUTSIDE_FORM: usize = 4;

pub const SHARES_CELLS: usize = 5;

pub const NEEDS_ROOM: usize = 6;

pub const NOT_A_CELL: usize = 7;

pub const NO_TEXT: usize = 8;

// The two numbers of an answer.
#[tactic(auto, unfolding(crate::specs::Shows::shown_of, transcriber::specs::Promise::numbers_of, rules::specs::Refusals::number_of, rules::specs::Refusals::second_of))]
pub fn numbers(answer: Result<usize, Refusal>) -> Shown
    ensures { result ≡ shown_of answer }
{
    let (number, second) = match answer {
        Ok(n) => (DONE, n),
        Err(Refusal::TooLong(n)) => (TOO_LONG, n),
        Err(Refusal::NoSign(n)) => (NO_SIGN, n),
        Err(Refusal::PairBroken(n)) => (PAIR_BROKEN, n),
        Err(Refusal::OutsideForm(n)) => (OUTSIDE_FORM, n),
        Err(Refusal::SharesCells(n)) => (SHARES_CELLS, n),
        Err(Refusal::NeedsRoom(n)) => (NEEDS_ROOM, n),
    };
    Shown { number, second }
}

// Print to cells, as `transcriber::transcribe`: any print, any lent row. Two wrong programs that the promise shuts out: one that shows a number of its
// own for a refusal, and one that shows a count that is not the row's length.
#[unsafe(no_mangle)]
pub extern "C" fn desk_transcribe(print: &[u32], row: &mut [u8]) -> Shown
    ensures { Shows castilian print.now row.old result row.new }
{
    numbers(transcriber::transcribe(print, row))
}

// The two numbers of an answer to a row.
#[tactic(auto, unfolding(crate::specs::Shows::read_of, reader::specs::Promise::numbers_of, rules::specs::Refusals::number_of, rules::specs::Refusals::second_of))]
pub fn read_numbers(answer: Result<usize, reader::Refusal>) -> Shown
    ensures { result ≡ read_of answer }
{
    let (number, second) = match answer {
        Ok(n) => (DONE, n),
        Err(reader::Refusal::TooLong(n)) => (TOO_LONG, n),
        Err(reader::Refusal::NotACell(n)) => (NOT_A_CELL, n),
        Err(reader::Refusal::NoText) => (NO_TEXT, 0),
        Err(reader::Refusal::NeedsRoom(n)) => (NEEDS_ROOM, n),
    };
    Shown { number, second }
}

// Cells to print, as `reader::read`: any row, any lent text. Two wrong programs that the promise shuts out: one that shows "no text" for a byte that is no cell,
// and one that shows a refusal as a success.
#[unsafe(no_mangle)]
pub extern "C" fn desk_read(row: &[u8], text: &mut [u32]) -> Shown
    ensures { ShowsRead castilian row.now text.old result text.new }
{
    read_numbers(reader::read(row, text))
}

// A sign of a row, as numbers.
fn shown_sign(sign: stepper::Sign) -> Sign
    ensures { result ≡ points_of sign.lead sign.point sign.next }
{
    match sign.lead {
        None => Sign {
            number: DONE,
            second: 1,
            first: sign.point,
            then: NO_POINT,
            next: sign.next,
        },
        Some(lead) => Sign {
            number: DONE,
            second: 2,
            first: lead,
            then: sign.point,
            next: sign.next,
        },
    }
}

// No code point, and the place stays.
fn no_sign(shown: Shown, place: usize) -> Sign
    ensures { result ≡ still_of shown place }
{
    Sign {
        number: shown.number,
        second: shown.second,
        first: NO_POINT,
        then: NO_POINT,
        next: place,
    }
}

// What a step shows, as numbers.
#[tactic(auto, unfolding(crate::specs::Shows::sign_of))]
fn sign_numbers(shown: Result<Option<stepper::Sign>, reader::Refusal>, place: usize) -> Sign
    ensures { result ≡ sign_of place shown }
{
    match shown {
        Ok(Some(sign)) => shown_sign(sign),
        Ok(None) => no_sign(
            Shown {
                number: DONE,
                second: 0,
            },
            place,
        ),
        Err(refusal) => no_sign(read_numbers(Err(refusal)), place),
    }
}

// The proofing screen's step, as `stepper::step`: any row, any place. Two wrong programs that the promise shuts out: one that moves on although the row is refused,
// and one that shows one code point of two.
#[unsafe(no_mangle)]
pub extern "C" fn desk_step(row: &[u8], place: usize) -> Sign
    ensures { ShowsSign castilian row.now place result }
{
    sign_numbers(stepper::step(row, place), place)
}
