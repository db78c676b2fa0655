// Writes the text of each packed scene of the list data/scenes. The list and the expected lines come from
// checks/cases_step.py, which works them out from the rules.
#![tactic(auto)]

use cases_texts::print_all;
use std::fs::File;
use std::io;

fn main(rt: HostRuntime) -> io::Result<()> {
    let mut list = File::open(&rt, "scenes")?;
    print_all(&rt, &mut list)?;
    Ok(())
}
