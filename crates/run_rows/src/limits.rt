// Either side of each line of the paper: lengths, bytes that are no cells, and room. A line of the report for each, with the answer's two numbers.
use crate::say::{Cells, Numbers};
use crate::trial::UNTOUCHED;
use crate::{say, trial};
use std::io;

// "a row above 12,288 cells", "a text above 4,096": each line, and one past it.
const LONGEST_ROW: usize = 12288;

const ROW_ROOM: usize = 12289;

const LONGEST_TEXT: usize = 4096;

const TEXT_ROOM: usize = 4097;

// The cells, by their dots.
const BLANK: u8 = 0;

const D1: u8 = 1;

const D12: u8 = 3;

const D14: u8 = 9;

const D356: u8 = 52;

const D456: u8 = 56;

// A cell that begins no sign; the least byte and the greatest that are no cell.
const D123456: u8 = 63;

const FIRST_HIGH: u8 = 64;

const LAST_HIGH: u8 = 255;

// ‰ has three cells.
const MILLE_CELLS: usize = 3;

const PER_MILLE: [u8; MILLE_CELLS] = [D456, D356, D356];

// "abc" is read to the middle of a text, so many elements from its front and at least as many from its end.
const MARGIN: usize = 2;

const ABC: usize = 3;

const MOST_ROOM: usize = 4;

const ABC_TEXT: usize = 8;

// Tries a row, with room for the longest text and one more, and tells the answer.
fn tell(rt: &impl Print, row: &[u8]) -> io::Result<()> {
    let mut text = [UNTOUCHED; TEXT_ROOM];
    let mut back = [BLANK; LONGEST_ROW];
    let answer = trial::tried(rt, row, &mut text, &mut back)?;
    println!(rt; "{}{}", Cells(row), Numbers(answer))
}

// ---- lengths

// The longest row: as many ‰ as a text may have.
fn tell_per_mille(rt: &impl Print) -> io::Result<()> {
    let mut row = [BLANK; LONGEST_ROW];
    row.as_chunks_mut().0.fill(PER_MILLE);
    tell(rt, &row)
}

// "above 12,288 cells is 1, then 7"
fn tell_long_with_high(rt: &impl Print) -> io::Result<()> {
    let mut row = [D1; ROW_ROOM];
    row[0] = FIRST_HIGH;
    tell(rt, &row)
}

fn lengths(rt: &impl Print) -> io::Result<()> {
    tell(rt, &[])?;
    tell(rt, &[BLANK; LONGEST_ROW])?;
    tell(rt, &[BLANK; ROW_ROOM])?;
    tell(rt, &[D1; LONGEST_TEXT])?;
    tell(rt, &[D1; TEXT_ROOM])?;
    tell_per_mille(rt)?;
    tell_long_with_high(rt)
}

// ---- bytes

// Rows of five cells, by the first and the last.
fn bytes(rt: &impl Print) -> io::Result<()> {
    for (first, last) in [
        (FIRST_HIGH, D1),
        (D1, FIRST_HIGH),
        (LAST_HIGH, D1),
        (D1, LAST_HIGH),
        (D123456, D1),
        (D123456, FIRST_HIGH),
        (FIRST_HIGH, LAST_HIGH),
    ] {
        tell(rt, &[first, D1, D1, D1, last])?;
    }
    Ok(())
}

// ---- room

// "abc", read to the middle of a text: the room is lent, and what stands before and behind it is then as it was. (No more than MOST_ROOM is asked for.)
fn tell_room(rt: &impl Print, room: usize) -> io::Result<()> {
    let row = [D1, D12, D14];
    let mut text = [UNTOUCHED; ABC_TEXT];
    let mut back = [BLANK; ABC];
    if MOST_ROOM < room {
        return Ok(());
    }
    let end = MARGIN + room;
    let answer = trial::tried(rt, &row, &mut text[MARGIN..end], &mut back)?;
    if !trial::is_untouched(&text[..MARGIN]) || !trial::is_untouched(&text[end..]) {
        say::disagrees(rt, "an element outside the room is touched", &row)?;
    }
    println!(rt; "room {room}{}", Numbers(answer))
}

fn rooms(rt: &impl Print) -> io::Result<()> {
    for room in [0, ABC - 1, ABC, MOST_ROOM] {
        tell_room(rt, room)?;
    }
    Ok(())
}

pub fn run(rt: &impl Print) -> io::Result<()> {
    lengths(rt)?;
    bytes(rt)?;
    rooms(rt)
}
