// One vector against the desk, at several rooms. It is the export for C that is tried, so its answers are taken as that shows them: by two numbers.
use desk::Shown;
use std::io;

// The number of an answer that is no refusal, and of "the answer needs more room than lent".
pub const DONE: usize = 0;

const NEEDS_ROOM: usize = 6;

// The braille patterns of six dots stand from U+2800 on, in the cells' order.
const FIRST_PATTERN: u32 = 0x2800;

const CELLS: u8 = 64;

// What every element of the row holds before a call: it is no cell.
const UNTOUCHED: u8 = 0xA5;

// More than the 12,288 cells of the longest row.
const MOST_ROOM: usize = 12300;

// A vector that is to be run. `asked`: the answer that is right where the room is enough; none, for an answer that is never given. `cells`: those of the row. (Print that
// is refused has none.)
#[derive(Clone, Copy)]
pub struct Trial<'a> {
    pub name: &'a [u8],
    pub text: &'a [u32],
    pub asked: Option<Shown>,
    pub cells: &'a [u32],
}

// Is the row's element as it should be: the cell that is due there, or untouched behind the last? A code point that is no cell's is never right.
fn is_due(byte: u8, cell: Option<&u32>) -> bool {
    match cell {
        Some(cell) => byte < CELLS && FIRST_PATTERN + byte as u32 == *cell,
        None => byte == UNTOUCHED,
    }
}

// The first place where the row does not hold the cells or, behind them, is not as it was.
fn first_difference(row: &[u8], cells: &[u32]) -> Option<usize> {
    row.iter()
        .enumerate()
        .position(|(place, byte)| !is_due(*byte, cells.get(place)))
}

impl<'a> Trial<'a> {
    // The answer that is right with so much room, and the cells that are then written: print that is accepted is refused where its cells do not fit. (The second
    // number is the same.)
    fn asked_in(self, room: usize) -> (Option<Shown>, &'a [u32]) {
        match self.asked {
            Some(asked) if asked.number == DONE && room < asked.second => {
                let refusal = Shown {
                    number: NEEDS_ROOM,
                    second: asked.second,
                };
                (Some(refusal), &[])
            }
            Some(asked) if asked.number == DONE => (Some(asked), self.cells),
            refusal => (refusal, &[]),
        }
    }

    // One call, with the row as the room. What is not right is told: the room, the answer's two numbers, and the first place where the row is wrong, or its end.
    fn is_right_in(self, rt: &impl Print, row: &mut [u8]) -> io::Result<bool> {
        let got = desk::desk_transcribe(self.text, row);
        let (asked, cells) = self.asked_in(row.len());
        let difference = first_difference(row, cells);
        if asked == Some(got) && difference.is_none() {
            return Ok(true);
        }
        let room = row.len();
        let place = difference.unwrap_or(room);
        // a name may be any bytes, which `Display` cannot write
        rt.write_all(b"FAILED ")?;
        rt.write_all(self.name)?;
        println!(rt; " {room} {} {} {place}", got.number, got.second)?;
        Ok(false)
    }

    // One call, with so much room. (There is no more than MOST_ROOM.)
    fn is_right_at(self, rt: &impl Print, room: usize) -> io::Result<bool> {
        let mut row = [UNTOUCHED; MOST_ROOM];
        if MOST_ROOM < room {
            return Ok(true);
        }
        self.is_right_in(rt, &mut row[..room])
    }

    // All calls, up to the first that is not right.
    pub fn is_right(self, rt: &impl Print) -> io::Result<bool> {
        let n = self.cells.len();
        for room in [0, n.saturating_sub(1), n, n + 1, MOST_ROOM] {
            if !self.is_right_at(rt, room)? {
                return Ok(false);
            }
        }
        Ok(true)
    }
}
