// The three line programs: what each prints for a line. How long a line each takes and what it lends stands in `limits`, what an input is cut into in `lines`; reading and
// writing stand in `filters`. The rooms are lent one by one, as they are handed on: a struct of them would be made for one call and taken apart in it.
#![tactic(auto)]

ghost use Rattle.std.specs.Prelude.{◌≡◌, ◌≤◌, length};
ghost use Rattle.limits.specs.Limits.{longest_row_line, longest_line, room_for_text, most_bytes};
ghost use Rattle.programs.specs.Answers.{AnswersLine};

use limits::{Program, ROOM_FOR_CELLS};

// What is printed for a line, whose bytes `line` holds, or of which it holds that it is long (`lines`). It goes to the front of `out`; the other slices are room to work in.
// Two wrong programs that the promise shuts out: one that answers the beginning of a long line, and one that prints for a line what the line before it was answered.
pub fn answer_line(
    program: Program,
    line: &[u8],
    held: usize,
    points: &mut [u32],
    row: &mut [u8],
    text: &mut [u32],
    out: &mut [u8],
) -> usize
    requires line_len { length line.now ≡ longest_line program }
    requires longest_row_line_in_bounds { longest_row_line ≤ length points.old }
    requires longest_row_line_in_bounds_2 { longest_row_line ≤ length row.old }
    requires text_len { length text.old ≡ room_for_text }
    requires most_bytes_in_bounds { most_bytes ≤ length out.old }
    ensures answers_line { AnswersLine program line.now held out.old result out.new }
    ensures upper_bound { result ≤ length out.new }
{
    if lines::is_long(line, held) {
        return replies::long_line(out);
    }
    match program {
        Program::Transcribe => answers::transcribe_line(
            &line[..held],
            points,
            &mut row[..ROOM_FOR_CELLS],
            out,
        ),
        Program::Read => answers::read_line(&line[..held], points, row, text, out),
        Program::Steps => proofing::steps_line(&line[..held], points, row, out),
    }
}
