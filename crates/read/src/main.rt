// The way back: rows of cells, as characters U+2800 plus the cell, to text.
#![tactic(auto)]

use filters::Failure;

fn main(rt: HostRuntime) -> Result<(), Failure> {
    filters::run(rt.stdin(), rt.stdout(), limits::Program::Read)
}
