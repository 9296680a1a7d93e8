// Runs cases through the compiled code, and says what came of each. Cases are data: `args` names the files of the folder `data` that are run, one
// after the other. A file of the folder `desk` is an input of the program `desk`, and is run as that program runs it; every other file has a case
// on each line. Its call is made through the function for C (`ofb`) where there is one. `stdout` has what is said: the name of each file, and
// below it the desk's lines, or each line with what came of it. Assumes what std does of the C functions below it.
#![tactic(auto)]

mod books;
mod cases;
mod forms;
mod input;
mod kinds;
mod orders;
mod stored;

use std::env::{Env, FillError};
use std::io;

// The bytes that a name may have; a longer one counts as empty.
const MOST_NAME: usize = 64;

// Runs each file that the arguments name. They are taken one by one, since `env::args` answers none where one is not UTF-8.
fn main(rt: HostRuntime) -> io::Result<()> {
    let mut name = [0u8; MOST_NAME];
    for i in 1..usize::MAX {
        match rt.arg(i, &mut name) {
            Ok(n) => input::run(&rt, &name[..n])?,
            Err(FillError::TooLong) => input::run(&rt, b"")?,
            Err(FillError::NotPresent) => break,
        }
    }
    Ok(())
}
