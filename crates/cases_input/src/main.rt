// Reads and prints as the program does, at the limit of 32,768 bytes: standard input has one byte more, the file
// data/longest just as many. checks/cases_step.py makes both, and works out the lines.
#![tactic(auto)]

use iisph_print::print_from;
use std::fs::File;
use std::io;

fn main(rt: HostRuntime) -> io::Result<()> {
    let mut input = rt.reader();
    print_from(&rt, &mut input)?;
    let mut longest = File::open(&rt, "longest")?;
    print_from(&rt, &mut longest)?;
    Ok(())
}
