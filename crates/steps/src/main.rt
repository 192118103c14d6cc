// The proofing screen on paper: rows of cells to their signs, each with its place.
#![tactic(auto)]

use filters::Failure;

fn main(rt: HostRuntime) -> Result<(), Failure> {
    filters::run(rt.stdin(), rt.stdout(), limits::Program::Steps)
}
