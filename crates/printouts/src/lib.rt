// What is printed of the two numbers that the desk shows (paper 01, "The line program"): of 0 and a count, `ok` with the row or the text; of a refusal's numbers, `no` with both.
#![tactic(auto)]

ghost use Rattle.std.specs.Prelude.{◌≡◌, ◌≤◌, length};
ghost use Rattle.printing.specs.Printed.{Prints};
ghost use Rattle.printouts.specs.Lines.{shown_reply};

use desk::{DONE, Shown};
use printing::Character;
use replies::{ok_line, refusal_line};

// "`ok`, a blank and one character U+2800 plus the cell for each cell", or "the text in UTF-8": so many as are told, of those that are lent; "or `no`, .."
// Two wrong programs that the promise shuts out: one that prints all that is lent, and one that prints a refusal as a row.
pub fn reply<T: Character>(out: &mut [u8], shown: Shown, lent: &[T]) -> usize
    requires { shown.number ≡ 0 → shown.second ≤ length lent.now }
    ensures { Prints out.old 0 (shown_reply T.shown shown lent.now) result out.new }
{
    // Whether it is a refusal is told by a number, since C is given it (`desk::Shown`).
    if shown.number != DONE {
        return refusal_line(out, shown.number, shown.second); // "or `no`, the refusal number and the second number"
    }
    let count = shown.second;
    ok_line(out, &lent[..count])
}
