// One row: read, transcribed back, and stepped through.
ghost use Rattle.std.specs.Prelude.{◌≤◌};

use crate::say;
use reader::Refusal;
use std::io;
use stepper::Sign;

// The numbers of paper 01's table that are told apart here. An answer's numbers are those that the desk shows.
pub const DONE: usize = 0;

const NEEDS_ROOM: usize = 6;

pub const NO_TEXT: usize = 8;

// What every element of a lent text holds before a call: it is no code point.
pub const UNTOUCHED: u32 = 0xFFFFFFFF;

// A place that no row has.
const FAR_BEHIND: usize = usize::MAX;

// A row is asked for the signs at its first places, and a row of fewer cells at all of them and at some past its end.
const PLACES_ASKED: usize = 64;

const PLACES_PAST: usize = 3;

// How many code points an answer says are written.
pub fn written(answer: desk::Shown) -> usize {
    if answer.number == DONE {
        answer.second
    } else {
        0
    }
}

// ---- what a call leaves

// Is every element of a part of the text as it was?
pub fn is_untouched(part: &[u32]) -> bool {
    part.iter().all(|element| *element == UNTOUCHED)
}

// Does the text give just this row? It is transcribed to `back`.
fn gives_back(text: &[u32], row: &[u8], back: &mut [u8]) -> bool {
    let answer = desk::numbers(transcriber::transcribe(text, back));
    answer.number == DONE && answer.second == row.len() && back.starts_with(row)
}

// ---- steps

// How many places are asked, from the row's first.
fn places_of(row: &[u8]) -> usize
    ensures { result ≤ 67 }
{
    if PLACES_ASKED < row.len() {
        return PLACES_ASKED;
    }
    row.len() + PLACES_PAST
}

// What the screen shows at a place: the first step, or one by a reader that was moved there.
fn shown_there(row: &[u8], place: usize) -> Result<Option<Sign>, Refusal> {
    if place == 0 {
        return screen::first(row);
    }
    screen::shown_at(row, place)
}

// Behind the print of a sign, or none where the text goes on otherwise.
fn behind_sign(text: &[u32], sign: Sign) -> Option<&[u32]> {
    match sign.lead {
        Some(lead) => text.strip_prefix(&[lead, sign.point]),
        None => text.strip_prefix(&[sign.point]),
    }
}

// Where a walk is: the place where the next sign is to start, and what of the text is not shown yet.
#[derive(Clone, Copy)]
struct Walk<'a> {
    due: usize,
    left: &'a [u32],
}

impl<'a> Walk<'a> {
    // What a step at a place makes of a walk, or none where it has lost its way. A sign is to be shown where the walk is, and at no other place; the screen goes on behind
    // it, and else stays.
    fn stepped(self, row: &[u8], place: usize) -> Option<Walk<'a>> {
        let is_due = place == self.due && place < row.len();
        let shown = shown_there(row, place);
        let after = screen::place_after(shown, place);
        match shown {
            Ok(Some(sign)) if is_due && place < sign.next && after == sign.next => {
                let left = behind_sign(self.left, sign)?;
                Some(Walk {
                    due: sign.next,
                    left,
                })
            }
            Ok(None) if !is_due && after == place => Some(self),
            _ => None,
        }
    }
}

// Where the steps of a row lead: those at its first places, at its end, and far behind.
fn walk_of<'a>(row: &[u8], text: &'a [u32]) -> Option<Walk<'a>> {
    let mut walk = Walk { due: 0, left: text };
    for place in 0..places_of(row) {
        walk = walk.stepped(row, place)?;
    }
    walk.stepped(row, row.len())?.stepped(row, FAR_BEHIND)
}

// Do the steps of a row show its text, sign by sign from its first cell on, and nothing at any other place? Of a long row its first places are asked, its end,
// and one far behind.
fn is_walked(row: &[u8], text: &[u32]) -> bool {
    let Some(walk) = walk_of(row, text) else {
        return false;
    };
    places_of(row) <= row.len() || (walk.due == row.len() && walk.left.is_empty())
}

// Is a step at a place refused so? None: is it not refused?
fn is_refused_at(row: &[u8], place: usize, asked: Option<desk::Shown>) -> bool {
    let shown = shown_there(row, place);
    let after = screen::place_after(shown, place);
    match shown {
        Err(refusal) => asked == Some(desk::read_numbers(Err(refusal))) && after == place,
        Ok(_) => asked.is_none(),
    }
}

// Is the step at every place that is asked refused so?
fn is_refused(row: &[u8], asked: Option<desk::Shown>) -> bool {
    (0..places_of(row)).all(|place| is_refused_at(row, place, asked))
        && is_refused_at(row, FAR_BEHIND, asked)
}

// ---- one row

// A row that was read: it is the row of the text, and its steps show the text.
fn check_read(rt: &impl Print, row: &[u8], text: &[u32], back: &mut [u8]) -> io::Result<()> {
    if !gives_back(text, row, back) {
        say::disagrees(rt, "the text has another row", row)?;
    }
    if !is_walked(row, text) {
        say::disagrees(rt, "the steps show another text", row)?;
    }
    Ok(())
}

// A row that was refused: "A row that isn't accepted is refused as reading refuses it, but never with 6".
fn check_refused(rt: &impl Print, row: &[u8], refusal: desk::Shown) -> io::Result<()> {
    let asked = match refusal.number {
        NEEDS_ROOM => None,
        _ => Some(refusal),
    };
    if !is_refused(row, asked) {
        say::disagrees(rt, "a step is refused otherwise", row)?;
    }
    Ok(())
}

// Reads a row and holds what it finds to the transcriber and to the steps. `text` is untouched, and `back` has room for the row.
pub fn tried(
    rt: &impl Print,
    row: &[u8],
    text: &mut [u32],
    back: &mut [u8],
) -> io::Result<desk::Shown> {
    let answer = desk::read_numbers(reader::read(row, text));
    let Some((text, behind)) = text.split_at_checked(written(answer)) else {
        say::disagrees(rt, "a count above what was lent", row)?;
        return Ok(answer);
    };
    if !is_untouched(behind) {
        say::disagrees(rt, "an element behind the text is touched", row)?;
    }
    match answer.number {
        DONE => check_read(rt, row, text, back)?,
        _ => check_refused(rt, row, answer)?,
    }
    Ok(answer)
}
