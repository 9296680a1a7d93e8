// The files that are run: an input of the desk as a whole, and any other line by line. Assumes what std does of files.
use crate::cases;
use runs_kit::kept::Kept;
use std::io::Read;
use std::rt::Files;
use std::{fs, io, str};

// The bytes of a file of cases that are run.
const MOST: u64 = 65536;

// Runs each line of a text; the last may stand without LF, and nothing is kept before the first.
fn lines(rt: &(impl Print + AllocGlobal), text: &[u8]) -> io::Result<()> {
    let mut kept = Kept::new(rt.alloc());
    for line in text.split_inclusive(|byte| *byte == b'\n') {
        cases::run(rt, line.strip_suffix(b"\n").unwrap_or(line), &mut kept)?;
    }
    Ok(())
}

// Reads a file of cases, as much of it as is run, and runs its lines. Says so if the file has more.
fn read(rt: &(impl Print + AllocGlobal), file: &mut impl Read) -> io::Result<()> {
    let mut text = Vec::new(rt.alloc());
    file.take(MOST).read_to_end(&mut text)?;
    lines(rt, &text)?;
    let mut more = [0u8; 1];
    if file.read(&mut more)? != 0 {
        println!(rt; "the file is too long: not all of it was run")?;
    }
    Ok(())
}

// Opens the file of a name, if there is one.
fn open<R: Files>(rt: &R, name: &[u8]) -> Option<R::File> {
    let path = str::from_utf8(name).ok()?;
    fs::open(rt, path).ok()
}

// Runs a file, below its name.
pub fn run(rt: &(impl Files + Print + AllocGlobal), name: &[u8]) -> io::Result<()> {
    print!(rt; "== ")?;
    rt.write_all(name)?;
    println!(rt; "")?;
    let Some(mut file) = open(rt, name) else {
        return println!(rt; "no such file");
    };
    if name.starts_with(b"desk/") {
        desk_loop::from(rt, &mut file)
    } else {
        read(rt, &mut file)
    }
}
