// Print to cells. `transcribe` is the public function; what it promises is specs/Promise.antt.
// The passes over a text (`passes::transcribe_normal`) take “ ” ‹ › for what they become, « » ‘ ’ (`plainly`), so only print with …, or with º or ª that lacks its
// full stop, is copied.
#![tactic(auto)]

ghost use Rattle.std.specs.Prelude.{◌≡◌, ◌≤◌, length, Err};
ghost use Rattle.rules.specs.Castilian.{castilian};
ghost use Rattle.rules.specs.Normal.{normal_of};
ghost use Rattle.rules.specs.Refusals.{longest_text};
ghost use Rattle.transcriber.specs.Promise.{Transcribed};
ghost use Rattle.transcriber.specs.Answering.{accepted_by};

use passes::LINE;
pub use passes::Refusal;

// "normalised text above 4,096 code points"
const LONGEST_TEXT: usize = 4096;

// A print of up to `LINE` code points has a shorter copy: the most that it becomes is three for each.
const LINE_NORMAL: usize = 3 * LINE;

// A print by its normalised text, which is made in what is lent for it.
fn transcribe_in(print: &[u32], text: &mut [u32], row: &mut [u8]) -> Result<usize, Refusal>
    requires { length (normal_of print.now) ≤ longest_text → length (normal_of print.now) ≤ length text.old }
    ensures { Transcribed castilian print.now row.old result row.new }
{
    match normal::normalise(print, text) {
        Ok(n) => passes::transcribe_normal(&text[..n], row),
        Err(no_room) => Err(Refusal::TooLong(no_room.length)),
    }
}

// The same, with an array of N code points.
fn transcribe_with<const N: usize>(print: &[u32], row: &mut [u8]) -> Result<usize, Refusal>
    requires { (length (normal_of print.now) ≤ longest_text → length (normal_of print.now) ≤ N) × (N ≤ longest_text) }
    ensures { Transcribed castilian print.now row.old result row.new }
{
    let mut text = [0u32; N];
    transcribe_in(print, &mut text, row)
}

// A print that normalising makes longer: through a copy, which has room for the longest text, or for the most that a short print becomes.
fn transcribe_copy(print: &[u32], row: &mut [u8]) -> Result<usize, Refusal>
    ensures { Transcribed castilian print.now row.old result row.new }
{
    if print.len() <= LINE {
        transcribe_with::<LINE_NORMAL>(print, row)
    } else {
        transcribe_with::<LONGEST_TEXT>(print, row)
    }
}

// Is this the refusal of a text that the rules accept? Only for want of room is such a text refused.
fn accepts(refusal: Refusal) -> bool
    ensures { result ≡ accepted_by (Err refusal) }
{
    matches!(refusal, Refusal::NeedsRoom(_))
}

// Print to cells: the answer of the rules for any print and any lent row. It is the count of cells written, and the row then holds them from its first
// element on and is otherwise as it was; or why there are none, and the row is as it was. What the rules accept, with « for “, is normal so; a copy is made only where they refuse and
// normalising makes the print longer.
// Two wrong programs that the promise shuts out: one that refuses all, and one that leaves a cell behind where it refuses.
pub fn transcribe(print: &[u32], row: &mut [u8]) -> Result<usize, Refusal>
    ensures { Transcribed castilian print.now row.old result row.new }
{
    // An empty line has an empty row. Without this it would pay for the room of 64 signs.
    if print.is_empty() {
        return Ok(0);
    }
    if LONGEST_TEXT < print.len() {
        return Err(Refusal::TooLong(normal::normal_length(print)));
    }
    match passes::transcribe_normal(print, row) {
        Ok(n) => Ok(n),
        Err(refusal) => {
            if accepts(refusal) {
                return Err(refusal);
            }
            // Of each code point normalising makes one at least. So where it makes no more in all, each is kept or becomes one other, and the passes have taken it so.
            if normal::normal_length(print) == print.len() {
                return Err(refusal);
            }
            transcribe_copy(print, row)
        }
    }
}
