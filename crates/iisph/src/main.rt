// Reads a packed scene from standard input and writes its text.
#![tactic(auto)]

use iisph_print::print_from;
use std::io;

fn main(rt: HostRuntime) -> io::Result<()> {
    let mut input = rt.reader();
    print_from(&rt, &mut input)?;
    Ok(())
}
