// Cells to print: `read` reads a whole row; what it promises is specs/Promise.antt. (The sign at one place of a row: crates/stepper.)
// One loop walks the row sign by sign (crates/walks). Between two signs it knows a mode and which pairs are open; both follow from the cells before, and neither is kept
// from one call to the next. The row is walked once. `read` has a draft written, a text of its own, and copies it to the
// lent text when all is known to fit: so nothing is written before. What a row of one cell has is looked up.
#![tactic(auto)]

ghost use Rattle.std.specs.Prelude.{◌&&◌, ◌⊎◌, ◌≡◌, ℕ, ◌≤◌, ◌<◌, eqb, length, get_or};
ghost use Rattle.rules.specs.Cells.{Text};
ghost use Rattle.rules.specs.Castilian.{castilian};
ghost use Rattle.rules.specs.Rows.{Reads};
ghost use Rattle.rules.specs.Refusals.{longest_row, longest_text, reported};
ghost use Rattle.rules.proofs.Machine.{at_rest};
ghost use Rattle.readings.specs.Modes.{mode_of, number_of};
ghost use Rattle.walks.specs.Walks.{CellsFrom, AllCells, Goes};
ghost use Rattle.reader.specs.Promise.{Read};
ghost use Rattle.reader.specs.Passes.{FirstHigh, RefusesRow, Found, Settled, at_start, line_row};

use readings::{Mode, NO_POINT, point_of};
use signs::LAST_CELL;
use walks::{NoText, Stand, walk, walk_row};

// Why a row is refused; the lent text is then as it was. Paper 01's number and second number for each are given by `Promise.refusal_of`.
#[derive(Clone, Copy, PartialEq, Eq)]
pub enum Refusal {
    // the row is above 12,288 cells, or reads as a text above 4,096: that length
    TooLong(usize),
    // a byte above 63: the first such place
    NotACell(usize),
    // a row that no text of any length has
    NoText,
    // the text needs more room than lent: the room needed
    NeedsRoom(usize),
}

// "a row above 12,288 cells", "a text above 4,096"
pub const LONGEST_ROW: usize = 12288;

pub const LONGEST_TEXT: usize = 4096;

// Rows that are read by way of a shorter draft: no text has more code points than its row has cells.
const WORD_ROW: usize = 16;

const SHORT_ROW: usize = 64;

const LINE_ROW: usize = 128;

const MIDDLE_ROW: usize = 512;

// "A length above 4,294,967,295 is reported as that number."
const MOST_REPORTED: usize = 4294967295;

pub fn reported_length(n: usize) -> usize
    ensures { result ≡ reported n }
{
    n.min(MOST_REPORTED)
}

// May a text end here: is what was begun whole, and no pair open?
pub fn ends(mode: Mode, opened: usize) -> bool
    ensures { result ≡ (at_rest (mode_of (number_of mode)) && eqb opened 0) }
{
    opened == 0 && signs::rests(mode)
}

// The greatest byte from a place on. (This loop has no way out but its end, so that the machine takes many bytes at once.)
fn greatest(row: &[u8], from: usize) -> u8
    requires { from ≤ length row.now }
    ensures { (n : ℕ) → from ≤ n → n < length row.now → get_or row.now n 0 ≤ result }
{
    let mut most: u8 = 0;
    for byte in &row[from..] {
        if most < *byte {
            most = *byte;
        }
    }
    most
}

// The place of the first byte above 63, or the row's length; before the place `from` there is none. (Few rows have one, and the greatest byte says so fastest.)
fn first_high(row: &[u8], from: usize) -> usize
    requires { (from ≤ length row.now) × CellsFrom row.now 0 from }
    ensures { FirstHigh row.now result }
{
    if greatest(row, from) <= LAST_CELL {
        return row.len();
    }
    match row[from..].iter().position(|byte| LAST_CELL < *byte) {
        Some(length) => from + length,
        None => row.len(),
    }
}

// Why a row has no text: a byte of it is no cell, or no text of any length has these cells. Before the place `from` all are cells.
#[tactic(auto, using(crate::proofs::Answering::row_not_cells, crate::proofs::Answering::row_proper, crate::proofs::Answering::row_no_text))]
pub fn unread(row: &[u8], from: usize) -> Refusal
    requires { (length row.now ≤ longest_row) × (from ≤ length row.now) × CellsFrom row.now 0 from × ((t : Text) → Reads castilian row.now t → ⊥) }
    ensures { RefusesRow castilian row.now result }
{
    let high = first_high(row, from);
    if high < row.len() {
        Refusal::NotACell(high)
    } else {
        Refusal::NoText
    }
}

// Walks a whole row. Where the draft is a longer one, it was asked before that the row is of cells. (Drawn into `read_by`, where the draft's length is known.)
#[inline(always)]
fn walk_whole(row: &[u8], draft: &mut [u32]) -> Result<Stand, NoText>
    requires { (length row.now ≤ longest_row) × (length draft.old ≤ longest_row) × (line_row < length draft.old → AllCells row.now) }
    ensures { Goes row.now (length row.now) at_start draft.old draft.new result }
{
    if draft.len() <= LINE_ROW {
        walk(row, Stand::at_start(), row.len(), draft)
    } else {
        walk_row(row, draft)
    }
}

// The count of code points that are to be written, or the refusal, by what a walk over the whole row found and by the room that is lent.
#[tactic(auto, using(crate::proofs::Answering::settle_refused))]
fn settle(row: &[u8], found: Result<Stand, NoText>, room: usize) -> Result<usize, Refusal>
    requires { (length row.now ≤ longest_row) × Found row.now found }
    ensures { Settled castilian row.now room result }
{
    let end = match found {
        Ok(end) => end,
        Err(none) => return Err(unread(row, none.cells)),
    };
    if !ends(end.mode, end.opened) {
        return Err(Refusal::NoText);
    }
    if LONGEST_TEXT < end.count {
        return Err(Refusal::TooLong(end.count));
    }
    if room < end.count {
        return Err(Refusal::NeedsRoom(end.count));
    }
    Ok(end.count)
}

// Reads a row by way of a draft, which has room for any text of the row, or for the longest that is accepted. The walk is lent nothing that the caller
// lent, so a refusal leaves that as it was. (One walk and a copy are faster than two walks, the first without room. A draft is cleared before it is used, so a
// short row has a short one.)
#[tactic(auto, using(crate::proofs::Copying::read_copied))]
fn read_by<const ROOM: usize>(row: &[u8], text: &mut [u32]) -> Result<usize, Refusal>
    requires { (length row.now ≤ longest_row) × (ROOM ≤ longest_row) × (line_row < ROOM → AllCells row.now) × ((length row.now ≤ ROOM) ⊎ (longest_text ≤ ROOM)) }
    ensures { Read castilian row.now text.old result text.new }
{
    let mut draft = [NO_POINT; ROOM];
    let found = walk_whole(row, &mut draft);
    let count = settle(row, found, text.len())?;
    text[..count].copy_from_slice(&draft[..count]);
    Ok(count)
}

// A row of one cell: what that is alone, or it has no text. (No walk is needed, nor a draft.)
#[tactic(auto, using(crate::proofs::Answering::read_refused))]
fn read_cell(row: &[u8], text: &mut [u32]) -> Result<usize, Refusal>
    requires { length row.now ≡ 1 }
    ensures { Read castilian row.now text.old result text.new }
{
    let Some(point) = point_of(row[0]) else {
        return Err(unread(row, 0));
    };
    if text.is_empty() {
        return Err(Refusal::NeedsRoom(1));
    }
    text[0] = point;
    Ok(1)
}

// Cells to print: the answer of the rules for any row and any lent text, which then holds the text from its first element on and is otherwise as it was.
// Two wrong programs that the promise shuts out: one that says that every row has no text, and one that writes before it knows that the row has one.
// (A longer row with a byte that is no cell is not walked for nothing; to ask that of a short one would cost more than its walk.)
#[tactic(auto, using(crate::proofs::Answering::read_refused, crate::proofs::Answering::row_long, crate::proofs::Answering::row_not_cells))]
pub fn read(row: &[u8], text: &mut [u32]) -> Result<usize, Refusal>
    ensures { Read castilian row.now text.old result text.new }
{
    // a row of a few cells is asked for first: what is asked is then much of its time
    if row.len() <= WORD_ROW {
        // an empty row has the empty text
        if row.is_empty() {
            return Ok(0);
        }
        if row.len() == 1 {
            return read_cell(row, text);
        }
        return read_by::<WORD_ROW>(row, text);
    }
    if LONGEST_ROW < row.len() {
        return Err(Refusal::TooLong(reported_length(row.len())));
    }
    if row.len() <= SHORT_ROW {
        return read_by::<SHORT_ROW>(row, text);
    }
    if row.len() <= LINE_ROW {
        return read_by::<LINE_ROW>(row, text);
    }
    let stray = first_high(row, 0);
    if stray < row.len() {
        return Err(Refusal::NotACell(stray));
    }
    if row.len() <= MIDDLE_ROW {
        return read_by::<MIDDLE_ROW>(row, text);
    }
    read_by::<LONGEST_TEXT>(row, text)
}
