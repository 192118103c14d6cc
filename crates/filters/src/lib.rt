// What the line programs have in common: standard input is read by chunks, each line is answered once its end has come, and each answer is written at once. The
// memory does not grow with the input. What a line is stands in `lines`, what is printed for it in `programs`.
#![tactic(auto)]

ghost use Rattle.std.specs.Prelude.{IfErr};
ghost use Rattle.filters.specs.Failures.{IsTold};

use limits::{LONGEST_ROW_LINE, MOST_BYTES, Program, ROOM_FOR_TEXT};
use std::error::Error;
use std::fmt;
use std::io::{self, ErrorKind, Read, Stdin, Stdout, Write};

// So many bytes are asked for at once.
const CHUNK: usize = 65536;

// What ends a program before its input has ended: a read that failed, or a write. It is told, unless nobody reads the output any more (`IsTold`): `run` makes that no failure.
#[derive(Drop)]
pub enum Failure {
    Input(io::Error),
    Output(io::Error),
}

impl fmt::Display for Failure {
    fn fmt<W: fmt::Write>(&self, f: &mut fmt::Formatter<W>) -> fmt::Result {
        match self {
            Failure::Input(e) => write!(f, "standard input: {e}"),
            Failure::Output(e) => write!(f, "standard output: {e}"),
        }
    }
}

// `main` tells an error in this form.
impl fmt::Debug for Failure {
    fn fmt<W: fmt::Write>(&self, f: &mut fmt::Formatter<W>) -> fmt::Result {
        write!(f, "{self}")
    }
}

impl Error for Failure {}

// A line program at work: the line that has not ended, of which `held` tells what is held (`lines`), and the rooms that an answer is worked out in.
#[derive(Drop)]
struct Filter {
    program: Program,
    output: Stdout,
    held: usize,
    line: [u8; LONGEST_ROW_LINE],
    points: [u32; LONGEST_ROW_LINE],
    row: [u8; LONGEST_ROW_LINE],
    text: [u32; ROOM_FOR_TEXT],
    out: [u8; MOST_BYTES],
}

impl Filter {
    fn new(program: Program, output: Stdout) -> Filter {
        Filter {
            program,
            output,
            held: 0,
            line: [0; LONGEST_ROW_LINE],
            points: [0; LONGEST_ROW_LINE],
            row: [0; LONGEST_ROW_LINE],
            text: [0; ROOM_FOR_TEXT],
            out: [0; MOST_BYTES],
        }
    }

    // Answers the line, which has ended.
    fn answer(&mut self) -> Result<(), Failure> {
        let longest = limits::longest_line(self.program);
        let n = programs::answer_line(
            self.program,
            &self.line[..longest],
            self.held,
            &mut self.points,
            &mut self.row,
            &mut self.text,
            &mut self.out,
        );
        self.held = 0;
        self.output
            .write_all(&self.out[..n])
            .map_err(Failure::Output)
    }

    // Answers the lines that end in a chunk.
    fn answer_all(&mut self, chunk: &[u8]) -> Result<(), Failure> {
        let longest = limits::longest_line(self.program);
        let mut at = 0;
        // Each line is taken to where it ends: there is nothing that a `for` could go over.
        while at < chunk.len() {
            let held = self.held;
            let taken = lines::take_in(chunk, at, &mut self.line[..longest], held);
            at = taken.next;
            self.held = taken.held;
            if taken.ended {
                self.answer()?;
            }
        }
        Ok(())
    }

    // Reads to the end of the input. A proved loop has to end, and nothing says that an input does: so the turns are counted, up to a number that no run reaches.
    fn answer_input(&mut self, mut input: Stdin) -> Result<(), Failure> {
        let mut chunk = [0; CHUNK];
        for _ in 0..u64::MAX {
            let n = input.read(&mut chunk).map_err(Failure::Input)?;
            if n == 0 {
                // "and so does the end of the input after at least one byte"
                if self.held > 0 {
                    self.answer()?;
                }
                return Ok(());
            }
            self.answer_all(&chunk[..n])?;
        }
        Ok(())
    }
}

// An output that nobody reads any more ends the program without a word; any other failure is told, and leaves nothing behind: the rooms are the program's own.
pub fn run(input: Stdin, output: Stdout, program: Program) -> Result<(), Failure>
    ensures { IfErr result IsTold }
{
    match Filter::new(program, output).answer_input(input) {
        Err(Failure::Output(e)) if e.kind() == ErrorKind::BrokenPipe => Ok(()),
        result => result,
    }
}
