// The lines of an input that comes by chunks (paper 01, "The line program"). A line is gathered in a room that the caller lends; of a line that is longer
// than its room only that is kept. Each byte is looked at once, however the input comes and however long a line is.
#![tactic(auto)]

ghost use Rattle.std.specs.Prelude.{◌≡◌, [], ◌∷◌};
ghost use Rattle.lines.specs.Held.{Keeps, TakesIn, Moves, is_long};

// "Byte 10 ends a line"
const LINE_END: u8 = 10;

// What was taken in. `next`: the place behind it. `held`: how many bytes of the line are counted; one more than the room has says that the line is longer. It
// stays a number, since `take_in` answers for any, and what a room shows (specs/Held.antt) is said by it. `ended`: whether the line has ended. It stays beside
// the others, since both say the same whether it has or not.
#[derive(Clone, Copy)]
pub struct Taken {
    pub next: usize,
    pub held: usize,
    pub ended: bool,
}

// One more byte of a line: it goes behind the `held` bytes that `line` holds, where there is room, and is counted, up to one more than the room has.
// It compares by `if`: as a `match` on `held.cmp(..)` each byte of a line takes twice the instructions (docs/DESIGN-PASS.md, "Speed, tried").
fn hold(line: &mut [u8], held: usize, byte: u8) -> usize
    ensures { Keeps line.old held (byte ∷ []) result line.new }
{
    if held < line.len() {
        line[held] = byte;
        held + 1
    } else if held == line.len() {
        held + 1
    } else {
        held
    }
}

// Takes in the bytes from `from` on, up to the end of the line or of the bytes, behind the `held` bytes of the line that `line` holds already. The answer and
// every element of `line` follow from the arguments, whatever they are; `moves` is what a loop over `bytes` needs to end.
// Two wrong programs that the promise shuts out: one that begins the line anew with each call, and one that stops where the room is full.
pub fn take_in(bytes: &[u8], from: usize, line: &mut [u8], held: usize) -> Taken
    ensures takes { TakesIn bytes.now from line.old held result line.new }
    ensures moves { Moves bytes.now from line.old result line.new }
{
    let rest = bytes.get(from..).unwrap_or_default();
    let mut count = held;
    for (passed, byte) in rest.iter().enumerate() {
        if *byte == LINE_END {
            return Taken {
                next: from + passed + 1,
                held: count,
                ended: true,
            };
        }
        count = hold(line, count, *byte);
    }
    Taken {
        next: from + rest.len(),
        held: count,
        ended: false,
    }
}

// Whether the line that `line` holds `held` bytes of is longer than its room.
pub fn is_long(line: &[u8], held: usize) -> bool
    ensures { result ≡ is_long line.now held }
{
    line.len() < held
}
