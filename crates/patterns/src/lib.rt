// The row that a line of characters shows: the way back from "one character U+2800 plus the cell for each cell".
#![tactic(auto)]

ghost use Rattle.std.specs.Prelude.{map, ◌≡◌, ◌≤◌, length};
ghost use Rattle.rows.specs.Laid.{laid};
ghost use Rattle.patterns.specs.Patterns.{byte_of, ShowsRow};

// The first and the last character that stands for a byte.
const FIRST_PATTERN: u32 = 0x2800;

const LAST_PATTERN: u32 = 0x28ff;

// Any other character counts as this byte, which is no cell.
const NO_PATTERN: u8 = 255;

// The byte that a character of a row stands for.
fn byte_of(point: u32) -> u8
    ensures { result ≡ byte_of point }
{
    match point {
        FIRST_PATTERN..=LAST_PATTERN => (point - FIRST_PATTERN) as u8,
        _ => NO_PATTERN,
    }
}

// The row that a line of characters shows. It is written by index, since no proof knows what is written through `iter_mut().zip(text)`.
fn fill_row(text: &[u32], row: &mut [u8])
    requires { length text.now ≤ length row.old }
    ensures { row.new ≡ laid (map byte_of text.now) row.old }
{
    for (i, point) in text.iter().enumerate() {
        row[i] = byte_of(*point);
    }
}

// The bytes of the row that a line shows, at the front of `row`, and how many there are.
pub fn row_of(line: &[u8], points: &mut [u32], row: &mut [u8]) -> usize
    requires line_in_bounds { length line.now ≤ length points.old }
    requires line_in_bounds_2 { length line.now ≤ length row.old }
    ensures shows_row { ShowsRow line.now points.old row.old result points.new row.new }
    ensures upper_bound { (result ≤ length points.new) × (result ≤ length row.new) }
{
    let count = utf8::decode(line, points);
    fill_row(&points[..count], row);
    count
}
