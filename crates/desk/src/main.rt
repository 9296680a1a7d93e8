// The program `desk`: forms in on standard input, one line per call out on standard output.
#![tactic(auto)]

use std::io;

// Runs the desk on standard input.
fn main(rt: HostRuntime) -> io::Result<()> {
    desk_loop::from(&rt, &mut rt.reader())
}
