// The exports: what C and Rust link (include/omdurgash.h). Each calls the function of crate `desk` that has its name, and states its clauses again: a crate that others use is no
// static library, and a static library is used by no other crate.
#![tactic(auto)]

ghost use Rattle.rules.specs.Castilian.{castilian};
ghost use Rattle.desk.specs.Shows.{Shows, ShowsRead, ShowsSign};

use desk::{Shown, Sign};

// Print to cells: any print, any lent row. A wrong program that the promise shuts out: one that shows every print as the empty one.
#[unsafe(no_mangle)]
pub extern "C" fn desk_transcribe(print: &[u32], row: &mut [u8]) -> Shown
    ensures { Shows castilian print.now row.old result row.new }
{
    desk::desk_transcribe(print, row)
}

// Cells to print: any row, any lent text. A wrong program that the promise shuts out: one that shows a text and writes none.
#[unsafe(no_mangle)]
pub extern "C" fn desk_read(row: &[u8], text: &mut [u32]) -> Shown
    ensures { ShowsRead castilian row.now text.old result text.new }
{
    desk::desk_read(row, text)
}

// A step of the proofing screen: any row, any place. A wrong program that the promise shuts out: one that steps from the row's start.
#[unsafe(no_mangle)]
pub extern "C" fn desk_step(row: &[u8], place: usize) -> Sign
    ensures { ShowsSign castilian row.now place result }
{
    desk::desk_step(row, place)
}
