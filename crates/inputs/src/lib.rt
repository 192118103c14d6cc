// The whole of an input, read into a room that is lent.
#![tactic(auto)]

ghost use Rattle.std.specs.Prelude.{◌≡◌, ℕ, ◌<◌, ◌≤◌, IfNone, IfOk, IfSome, OnErr, length, take};
ghost use Rattle.std.specs.Io.KnownBytes.{Consumes};

use std::io;
use std::io::Read;

// Reads up to the end of an input: how many bytes it has, which then stand at the room's front. None: the room is full, and what it holds may be the beginning
// of a longer input. Where a read fails, what the reads before it gave stands there. Two wrong programs that the promise shuts out: one that takes the first
// read for the whole, and one that loses what was read before. (std's `read_to_end` wants a heap, and its `read_exact` takes it for an error that an input
// ends before the room is full.)
pub fn read_whole<R: Read>(input: &mut R, room: &mut [u8]) -> io::Result<Option<usize>>
    ensures fits { IfOk result (λ found. IfSome found (λ n. n < length room.new)) }
    ensures whole { IfOk result (λ found. IfSome found (λ n. IfSome (R.remaining input.old) (λ bytes. bytes ≡ take n room.new))) }
    ensures full { IfOk result (λ found. IfNone found (Consumes (R.remaining input.old) (R.remaining input.new) room.new)) }
    ensures none_lost { OnErr result ((n : ℕ) × (n ≤ length room.new) × Consumes (R.remaining input.old) (R.remaining input.new) (take n room.new)) }
{
    let mut done = 0;
    while done < room.len() {
        match input.read(&mut room[done..])? {
            0 => return Ok(Some(done)),
            n => done += n,
        }
    }
    Ok(None)
}
