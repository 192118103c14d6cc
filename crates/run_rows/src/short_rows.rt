// Every row of one cell and of two.
use crate::{say, trial};
use std::io;

// "Cells are bytes 0 to 63"
const CELLS: u8 = 64;

// More than any text of two cells, and than two cells.
pub const SMALL_ROOM: usize = 8;

// Has a row a text? A row of cells that is not read has none.
fn has_text(rt: &impl Print, row: &[u8]) -> io::Result<bool> {
    let mut text = [trial::UNTOUCHED; SMALL_ROOM];
    let mut back = [0u8; SMALL_ROOM];
    let answer = trial::tried(rt, row, &mut text, &mut back)?;
    match answer.number {
        trial::DONE => return Ok(true),
        trial::NO_TEXT => {}
        _ => say::disagrees(rt, "neither read nor without a text", row)?,
    }
    Ok(false)
}

// How many rows of one cell have a text.
fn of_one_cell(rt: &impl Print) -> io::Result<usize> {
    let mut count = 0;
    for cell in 0..CELLS {
        count += usize::from(has_text(rt, &[cell])?);
    }
    Ok(count)
}

// How many rows of two cells have a text.
fn of_two_cells(rt: &impl Print) -> io::Result<usize> {
    let mut count = 0;
    for first in 0..CELLS {
        for second in 0..CELLS {
            count += usize::from(has_text(rt, &[first, second])?);
        }
    }
    Ok(count)
}

pub fn run(rt: &impl Print) -> io::Result<()> {
    println!(rt; "rows of one cell that are read: {}", of_one_cell(rt)?)?;
    println!(rt; "rows of two cells that are read: {}", of_two_cells(rt)?)
}
