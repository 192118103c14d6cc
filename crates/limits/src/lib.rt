// The three line programs by name: how long a line each takes, and how much room is lent.
#![tactic(auto)]

ghost use Rattle.std.specs.Prelude.{◌≡◌, ◌≤◌};
ghost use Rattle.limits.specs.Limits.{longest_row_line, longest_line};

#[derive(Clone, Copy)]
pub enum Program {
    // print to cells
    Transcribe,
    // cells to print
    Read,
    // cells to signs with their places
    Steps,
}

// "A line above 16,384 bytes, its end not counted, prints `long`": of print. A line of cells may have more, since a row of 12,288 cells has three bytes for each.
const LONGEST_PRINT_LINE: usize = 16384;

pub const LONGEST_ROW_LINE: usize = 40960;

// "Lent room is 12,288": cells; and code points, for the way back
pub const ROOM_FOR_CELLS: usize = 12288;

pub const ROOM_FOR_TEXT: usize = 4096;

// No answer has more bytes.
pub const MOST_BYTES: usize = 106499;

// The most bytes that a program takes as a line.
pub fn longest_line(program: Program) -> usize
    ensures value { result ≡ longest_line program }
    ensures upper_bound { result ≤ longest_row_line }
{
    match program {
        Program::Transcribe => LONGEST_PRINT_LINE,
        Program::Read => LONGEST_ROW_LINE,
        Program::Steps => LONGEST_ROW_LINE,
    }
}
