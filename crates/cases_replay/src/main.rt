// Runs the step on the packed scenes of the list data/scenes. The expected lines are the Rust's answers, recorded by
// checks/record.py, so the gate holds the step to the Rust with no Rust at hand; under rules 1 to 3, which the Rust
// does not have, the first line is that of the reading of the specification in checks/.
#![tactic(auto)]

use cases_texts::print_all;
use std::fs::File;
use std::io;

fn main(rt: HostRuntime) -> io::Result<()> {
    let mut list = File::open(&rt, "scenes")?;
    print_all(&rt, &mut list)?;
    Ok(())
}
