// What the line programs `transcribe` and `read` print for a line (paper 01, "The line program"): from the line's bytes to the bytes of the printed line, its end among them, in
// a slice that the caller lends. (What `steps` prints: `proofing`.) The rooms are lent one by one: a struct of them all would ask for a text where print is transcribed, which has no use for one.
#![tactic(auto)]

ghost use Rattle.std.specs.Prelude.{◌≤◌, length};
ghost use Rattle.answers.specs.Lines.{TranscribesLine, ReadsLine};

use patterns::row_of;
use printouts::reply;

// What `transcribe` prints for a line: "`ok`, a blank and one character U+2800 plus the cell for each cell; or `no`, .."
// Two wrong programs that the promise shuts out: one that prints the whole of the lent row, and one that prints a refusal as a row.
pub fn transcribe_line(line: &[u8], points: &mut [u32], row: &mut [u8], out: &mut [u8]) -> usize
    requires { length line.now ≤ length points.old }
    ensures transcribes_line { TranscribesLine line.now points.old row.old out.old result points.new row.new out.new }
    ensures upper_bound { result ≤ length out.new }
{
    let count = utf8::decode(line, points);
    let shown = desk::desk_transcribe(&points[..count], row);
    reply(out, shown, row)
}

// What `read` prints for a line: "`ok`, a blank and the text in UTF-8, or `no N M`".
// Two wrong programs that the promise shuts out: one that prints as many code points as the row has cells, and one that takes the characters for the row's bytes.
pub fn read_line(
    line: &[u8],
    points: &mut [u32],
    row: &mut [u8],
    text: &mut [u32],
    out: &mut [u8],
) -> usize
    requires line_in_bounds { length line.now ≤ length points.old }
    requires line_in_bounds_2 { length line.now ≤ length row.old }
    ensures reads_line { ReadsLine line.now points.old row.old text.old out.old result points.new row.new text.new out.new }
    ensures upper_bound { result ≤ length out.new }
{
    let cells = row_of(line, points, row);
    let shown = desk::desk_read(&row[..cells], text);
    reply(out, shown, text)
}
