// What is written to standard output, where it is more than a line of the report. A write that fails is an error, which is passed on.
use std::{fmt, io};

// So many cells of a row are shown.
const CELLS_SHOWN: usize = 8;

// A row: `cells 5: 64 1 1 1 1`, its length and its first cells as bytes.
#[derive(Clone, Copy)]
pub struct Cells<'a>(pub &'a [u8]);

impl<'a> fmt::Display for Cells<'a> {
    fn fmt<W: fmt::Write>(&self, f: &mut fmt::Formatter<W>) -> fmt::Result {
        write!(f, "cells {}:", self.0.len())?;
        for cell in self.0.iter().take(CELLS_SHOWN) {
            write!(f, " {cell}")?;
        }
        Ok(())
    }
}

// What reading a row gives, behind the row: ` -> 8 0`, the two numbers that the desk shows.
#[derive(Clone, Copy)]
pub struct Numbers(pub desk::Shown);

impl fmt::Display for Numbers {
    fn fmt<W: fmt::Write>(&self, f: &mut fmt::Formatter<W>) -> fmt::Result {
        write!(f, " -> {} {}", self.0.number, self.0.second)
    }
}

// Code points, in decimal, each behind a blank.
#[derive(Clone, Copy)]
pub struct Points<'a>(pub &'a [u32]);

impl<'a> fmt::Display for Points<'a> {
    fn fmt<W: fmt::Write>(&self, f: &mut fmt::Formatter<W>) -> fmt::Result {
        for point in self.0 {
            write!(f, " {point}")?;
        }
        Ok(())
    }
}

// `DISAGREES: WHAT, cells 2: 40 1`
pub fn disagrees(rt: &impl Print, what: &str, row: &[u8]) -> io::Result<()> {
    println!(rt; "DISAGREES: {what}, {}", Cells(row))
}

// Standard input, or a line of it, does not fit.
pub fn too_long(rt: &impl Print) -> io::Result<()> {
    println!(rt; "DISAGREES: standard input is too long")
}
