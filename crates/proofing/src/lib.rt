// What the line program `steps` prints for a line: the proofing screen on paper. Its signs are printed in `sign_lines`. The rooms are lent one by one, as in `answers`.
#![tactic(auto)]

ghost use Rattle.std.specs.Prelude.{◌≤◌, length};
ghost use Rattle.proofing.specs.Steps.{StepsLine};

use desk::DONE;
use patterns::row_of;
use printing::Page;
use replies::{LINE_END, refusal_line};
use sign_lines::put_signs;

// What `steps` prints for a line, at the front of `out`; the code points of the line and its row stand at the front of `points` and `row`. Two wrong programs that the promise shuts
// out: one that prints the place behind a sign for its own, and one that prints one code point of two.
pub fn steps_line(line: &[u8], points: &mut [u32], row: &mut [u8], out: &mut [u8]) -> usize
    requires line_in_bounds { length line.now ≤ length points.old }
    requires line_in_bounds_2 { length line.now ≤ length row.old }
    ensures steps_line { StepsLine line.now points.old row.old out.old result points.new row.new out.new }
    ensures upper_bound { result ≤ length out.new }
{
    let cells = row_of(line, points, row);
    let first = desk::desk_step(&row[..cells], 0);
    // Whether the row is refused is told by a number, since C is given it (`desk::Sign`).
    if first.number != DONE {
        return refusal_line(out, first.number, first.second);
    }
    let mut page = Page::new(out);
    page.bytes(b"ok");
    put_signs(&mut page, &row[..cells]);
    page.byte(LINE_END);
    page.at
}
