// The line program of paper 01: UTF-8 lines to rows of cells.
#![tactic(auto)]

use filters::Failure;

fn main(rt: HostRuntime) -> Result<(), Failure> {
    filters::run(rt.stdin(), rt.stdout(), limits::Program::Transcribe)
}
