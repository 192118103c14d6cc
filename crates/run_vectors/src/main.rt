// Holds the desk to the vectors on standard input, whose form stands at the head of the vector file. A line on standard output for each vector, `ok NAME` or
// `FAILED NAME ..`, a line for each line that is none of a vector's, `BAD LINE N`, and the totals.
//
// Nothing here trusts the desk or the vectors: every count is tested before anything is indexed by it.
#![tactic(auto)]

mod lines;
mod points;
mod trials;
mod vector;

use desk::Shown;
use points::{Base, number_in};
use std::io;
use trials::{DONE, Trial};
use vector::Vector;

// More than the 12,288 cells of the longest row: for a vector's print, and for its cells.
const ROOM: usize = 12300;

// The vector file is shorter than this.
const FILE_ROOM: usize = 65536;

const LINE_FEED: u8 = b'\n';

// What is known of the vector whose lines are being read, if one is begun, and of all lines before it.
#[derive(Clone, Copy)]
pub struct Progress<'a> {
    line: usize,
    vectors: usize,
    failed: usize,
    vector: Option<Vector<'a>>,
}

impl<'a> Progress<'a> {
    // Before the first line.
    fn at_the_start() -> Progress<'a> {
        Progress {
            line: 0,
            vectors: 0,
            failed: 0,
            vector: None,
        }
    }

    // The line is none that may stand here. What the vector had so far is dropped.
    fn bad_line(&mut self, rt: &impl Print) -> io::Result<()> {
        self.vector = None;
        println!(rt; "BAD LINE {}", self.line)
    }

    // A line `name ..`. Where the vector before it is not whole, that is told here, and the new one goes on.
    fn name_line(&mut self, rt: &impl Print, name: &'a [u8]) -> io::Result<()> {
        if self.vector.is_some() {
            self.bad_line(rt)?;
        }
        self.vector = Some(Vector::named(name));
        Ok(())
    }

    // Any other line, which has to be one that may stand there.
    fn middle_line(&mut self, rt: &impl Print, word: &[u8], rest: &'a [u8]) -> io::Result<()> {
        let Some(begun) = self.vector else {
            return self.bad_line(rt);
        };
        let Some(vector) = begun.with_line(word, rest) else {
            return self.bad_line(rt);
        };
        self.vector = Some(vector);
        Ok(())
    }

    // The vector is whole and was run: it is counted, and told where it is right.
    fn count(&mut self, rt: &impl Print, name: &[u8], is_right: bool) -> io::Result<()> {
        self.vector = None;
        self.vectors = self.vectors.saturating_add(1);
        if !is_right {
            self.failed = self.failed.saturating_add(1);
            return Ok(());
        }
        // a name may be any bytes, which `Display` cannot write
        rt.write_all(b"ok ")?;
        rt.write_all(name)?;
        println!(rt; "")
    }

    // Runs a vector at its last line: `asked` is the answer that is right, with these cells. A line before it that is not there, or not in its form, makes the last
    // one a bad one.
    fn run_vector(
        &mut self,
        rt: &impl Print,
        vector: Vector<'a>,
        asked: Option<Shown>,
        cells: &[u32],
    ) -> io::Result<()> {
        let mut text = [0u32; ROOM];
        let Some(n) = vector.put_print(&mut text) else {
            return self.bad_line(rt);
        };
        let name = vector.name;
        let trial = Trial {
            name,
            text: &text[..n],
            asked,
            cells,
        };
        let is_right = trial.is_right(rt)?;
        self.count(rt, name, is_right)
    }

    // A line `no ..`.
    fn no_line(&mut self, rt: &impl Print, refusal: &[u8]) -> io::Result<()> {
        let Some(vector) = self.vector.filter(|vector| vector.before.is_none()) else {
            return self.bad_line(rt);
        };
        self.run_vector(rt, vector, refusal_in(refusal), &[])
    }

    // A line `cells ..`.
    fn cells_line(&mut self, rt: &impl Print, part: &[u8]) -> io::Result<()> {
        let mut cells = [0u32; ROOM];
        let Some(vector) = self.vector else {
            return self.bad_line(rt);
        };
        let Some(n) = vector.put_cells(part, &mut cells) else {
            return self.bad_line(rt);
        };
        let asked = Shown {
            number: DONE,
            second: n,
        };
        self.run_vector(rt, vector, Some(asked), &cells[..n])
    }

    // A line, without its end.
    fn take_line(&mut self, rt: &impl Print, line: &'a [u8]) -> io::Result<()> {
        let word = lines::first_word(line);
        let rest = lines::behind_word(line);
        match word {
            b"" => Ok(()),
            b"name" => self.name_line(rt, rest),
            b"cells" => self.cells_line(rt, rest),
            b"no" => self.no_line(rt, rest),
            _ => self.middle_line(rt, word, rest),
        }
    }
}

// The refusal that a part asks for. None: the part is not in its form, and asks for what is never answered.
fn refusal_in(part: &[u8]) -> Option<Shown> {
    let (number, second) = lines::around_blank(part);
    Some(Shown {
        number: number_in(number, Base::Ten)? as usize,
        second: number_in(second, Base::Ten)? as usize,
    })
}

// All lines of the file, and the totals.
fn run(rt: &impl Print, file: &[u8]) -> io::Result<()> {
    let mut progress = Progress::at_the_start();
    for line in file.split_inclusive(|byte| *byte == LINE_FEED) {
        progress.line = progress.line.saturating_add(1);
        progress.take_line(rt, line.strip_suffix(&[LINE_FEED]).unwrap_or(line))?;
    }
    if progress.vector.is_some() {
        progress.bad_line(rt)?;
    }
    println!(rt; "{} vectors, {} failed", progress.vectors, progress.failed)
}

fn main(rt: HostRuntime) -> io::Result<()> {
    let mut file = [0u8; FILE_ROOM];
    let Some(n) = inputs::read_whole(&mut rt.reader(), &mut file)? else {
        return println!(rt; "the vectors are too long to be read whole");
    };
    run(&rt, &file[..n])
}
