// Every text of one and of two code points that have a sign: what is written in one cell or in two is read back. No text of more code points is that short.
ghost use Rattle.std.specs.Prelude.{◌≤◌, length};

use crate::short_rows::SMALL_ROOM;
use crate::{say, trial};
use std::io;
use transcriber::transcribe;

// No code point above this has a sign.
const LAST_POINT: u32 = 0xFFFF;

// More than the code points that have a sign.
const SIGNS_ROOM: usize = 160;

const MOST_CELLS: usize = 2;

// The number of paper 01's table for "a code point with no sign".
const NO_SIGN: usize = 2;

// The rows are numbered: those of one cell, and behind them those of two.
const ROWS_OF_ONE: usize = 64;

const ROWS: usize = 4160;

// ---- the code points

// Has a code point a sign, or does it become one that has? (º, ª and U+2044 have one, and are refused alone for another reason; U+2026 and the quotes that
// normalising replaces become some that have.)
fn has_sign(point: u32) -> bool {
    let mut row = [0u8; SMALL_ROOM];
    desk::numbers(transcribe(&[point], &mut row)).number != NO_SIGN
}

// Puts the code points that have a sign at the front of `points`, as far as there is room: how many they are.
fn find_signs(points: &mut [u32]) -> usize
    ensures { result ≤ length points.old }
{
    // counted here, and not by `enumerate`: not each code point is put, and how many are is the answer
    let mut count = 0;
    for point in 0..=LAST_POINT {
        if count < points.len() && has_sign(point) {
            points[count] = point;
            count += 1;
        }
    }
    count
}

// What normalising makes of a code point that it keeps or changes to one other. (U+2026 becomes three, which have three cells.)
fn normal_of(point: u32) -> u32 {
    match point {
        0x201C => 0xAB, // “ becomes «
        0x201D => 0xBB, // ” becomes »
        0x2039 => 0x2018, // ‹ becomes ‘
        0x203A => 0x2019, // › becomes ’
        _ => point,
    }
}

// Is what was read the normalised text?
fn is_normal_of(read: &[u32], text: &[u32]) -> bool {
    read.len() == text.len()
        && read
            .iter()
            .zip(text)
            .all(|(point, written)| *point == normal_of(*written))
}

// ---- the rows

// The number of a row of one cell or of two.
fn number_of(row: &[u8]) -> Option<usize> {
    match row {
        [cell] => Some(*cell as usize),
        [first, second] => Some(ROWS_OF_ONE + *first as usize * ROWS_OF_ONE + *second as usize),
        _ => None,
    }
}

// How many of these rows are written.
fn count_written(rows: &[bool]) -> usize {
    rows.iter().filter(|is_written| **is_written).count()
}

// ---- the texts

// The row of a text: reading gives the text back, normalised.
fn check_row(rt: &impl Print, row: &[u8], text: &[u32], rows: &mut [bool]) -> io::Result<()> {
    let mut read = [trial::UNTOUCHED; SMALL_ROOM];
    let mut back = [0u8; SMALL_ROOM];
    let answer = trial::tried(rt, row, &mut read, &mut back)?;
    let count = trial::written(answer);
    if SMALL_ROOM < count || !is_normal_of(&read[..count], text) {
        say::disagrees(rt, "another text is read than was written", row)?;
    }
    if let Some(number) = number_of(row)
        && number < rows.len()
    {
        rows[number] = true;
    }
    Ok(())
}

// A text, if it is written in one cell or two.
fn check_text(rt: &impl Print, text: &[u32], rows: &mut [bool]) -> io::Result<()> {
    let mut row = [0u8; SMALL_ROOM];
    let answer = desk::numbers(transcribe(text, &mut row));
    if answer.number == trial::DONE && answer.second <= MOST_CELLS {
        check_row(rt, &row[..answer.second], text, rows)?;
    }
    Ok(())
}

// Every text of one code point and of two.
fn check_texts(rt: &impl Print, points: &[u32], rows: &mut [bool]) -> io::Result<()> {
    for first in points {
        check_text(rt, &[*first], rows)?;
        for second in points {
            check_text(rt, &[*first, *second], rows)?;
        }
    }
    Ok(())
}

pub fn run(rt: &impl Print) -> io::Result<()> {
    let mut points = [0u32; SIGNS_ROOM];
    let mut rows = [false; ROWS];
    let signs = find_signs(&mut points);
    check_texts(rt, &points[..signs], &mut rows)?;
    let (of_one, of_two) = rows.split_at(ROWS_OF_ONE);
    println!(rt; "code points with a sign: {signs}")?;
    println!(rt;
        "rows of one cell that are written: {}",
        count_written(of_one)
    )?;
    println!(rt;
        "rows of two cells that are written: {}",
        count_written(of_two)
    )
}
