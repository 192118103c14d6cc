// Runs the reader and the stepper against the transcriber: every row of one and of two cells, every text of one and of two code points, the limits, and the
// rows of standard input, which are those of the vectors. A line on standard output for each count and each answer, and a line `DISAGREES: ..` for whatever is
// not as it should be: a run that writes what the file `stdout` has is right.
//
// Nothing here trusts the reader or the transcriber: every count is tested before anything is indexed by it.
#![tactic(auto)]

mod dots;
mod limits;
mod say;
mod short_rows;
mod short_texts;
mod trial;

use std::io;

// Standard input is shorter than this.
const FILE_ROOM: usize = 16384;

fn main(rt: HostRuntime) -> io::Result<()> {
    let mut file = [0u8; FILE_ROOM];
    let Some(n) = inputs::read_whole(&mut rt.reader(), &mut file)? else {
        return say::too_long(&rt);
    };
    short_rows::run(&rt)?;
    short_texts::run(&rt)?;
    limits::run(&rt)?;
    dots::run(&rt, &file[..n])
}
