// The lines that the programs print (paper 01, "The line program"): `ok` with a row or with a text, `no` with the numbers of a refusal, `long`. Each is printed at the front of a slice
// that is lent, its end among it, and the answer is the place behind it.
#![tactic(auto)]

ghost use Rattle.printing.specs.Printed.{character_bytes, Prints};
ghost use Rattle.replies.specs.Replies.{ok_line, refusal_line, long_line};

use printing::{Character, Page};

pub const LINE_END: u8 = b'\n';

pub const BLANK: u8 = b' ';

// "it prints `ok`, a blank and one character U+2800 plus the cell for each cell"; "`ok`, a blank and the text in UTF-8"
pub fn ok_line<T: Character>(out: &mut [u8], items: &[T]) -> usize
    ensures { Prints out.old 0 (ok_line (character_bytes T.shown items.now)) result out.new }
{
    let mut page = Page::new(out);
    page.bytes(b"ok");
    page.byte(BLANK);
    page.characters(items);
    page.byte(LINE_END);
    page.at
}

// "or `no`, the refusal number and the second number, with single blanks"
pub fn refusal_line(out: &mut [u8], number: usize, second: usize) -> usize
    ensures { Prints out.old 0 (refusal_line number second) result out.new }
{
    let mut page = Page::new(out);
    page.bytes(b"no");
    page.byte(BLANK);
    page.number(number);
    page.byte(BLANK);
    page.number(second);
    page.byte(LINE_END);
    page.at
}

// "prints `long`"
pub fn long_line(out: &mut [u8]) -> usize
    ensures { Prints out.old 0 (long_line) result out.new }
{
    let mut page = Page::new(out);
    page.bytes(b"long");
    page.byte(LINE_END);
    page.at
}
