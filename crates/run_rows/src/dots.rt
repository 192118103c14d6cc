// The rows of standard input: a line for each, in dots as the paper writes them, `3456-23-1`; 0 is the blank cell.
ghost use Rattle.std.specs.Prelude.{◌≤◌, IfSome, length};

use crate::say::{Numbers, Points};
use crate::trial::UNTOUCHED;
use crate::{say, trial};
use std::io;

const LINE_FEED: u8 = b'\n';

const BETWEEN_CELLS: u8 = b'-';

const BLANK: u8 = 0;

// No row of standard input is longer.
const CELLS_ROOM: usize = 64;

// A sign of one cell may be two code points, and none is more.
const TEXT_ROOM: usize = 128;

// What a dot counts.
fn worth_of(dot: u8) -> u8 {
    match dot {
        b'1' => 1,
        b'2' => 2,
        b'3' => 4,
        b'4' => 8,
        b'5' => 16,
        b'6' => 32,
        _ => 0,
    }
}

fn cell_of(dots: &[u8]) -> u8 {
    dots.iter().fold(BLANK, |cell, dot| cell | worth_of(*dot))
}

// Puts the cells of a line at the front of a row: how many they are. None: there is no room for them.
fn put_cells(line: &[u8], row: &mut [u8]) -> Option<usize>
    ensures { IfSome result (λ n. n ≤ length row.new) }
{
    // counted here, and not by `enumerate`: how many they are is the answer
    let mut count = 0;
    for dots in line.split(|byte| *byte == BETWEEN_CELLS) {
        if count == row.len() {
            return None;
        }
        row[count] = cell_of(dots);
        count += 1;
    }
    Some(count)
}

// A line: its row is tried, and the answer and the text are told.
fn tell_line(rt: &impl Print, line: &[u8]) -> io::Result<()> {
    let mut row = [BLANK; CELLS_ROOM];
    let mut text = [UNTOUCHED; TEXT_ROOM];
    let mut back = [BLANK; CELLS_ROOM];
    let Some(count) = put_cells(line, &mut row) else {
        return say::too_long(rt);
    };
    let answer = trial::tried(rt, &row[..count], &mut text, &mut back)?;
    let points = Points(&text[..trial::written(answer).min(TEXT_ROOM)]);
    // a line of standard input may be any bytes, which `Display` cannot write
    rt.write_all(line)?;
    println!(rt; "{}{points}", Numbers(answer))
}

// Every line.
pub fn run(rt: &impl Print, file: &[u8]) -> io::Result<()> {
    for line in file.split_inclusive(|byte| *byte == LINE_FEED) {
        tell_line(rt, line.strip_suffix(&[LINE_FEED]).unwrap_or(line))?;
    }
    Ok(())
}
