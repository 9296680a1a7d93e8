// The desk's run on what a reader gives: the input is read, each call is one step, and the line of each is printed before the next. Assumes what
// std does of the C functions below it, and nothing else.
#![tactic(auto)]

ghost use Rattle.std.specs.Prelude.{◌≤◌, length, IfOk};

use desk_line::REPLY_ROOM;
use figures::limits;
use std::io;
use std::io::Read;

// How much of an input is read: one byte more than is allowed tells that it is longer.
const READ: usize = limits::MOST_INPUT + 1;

// Runs the desk on an input, with a book of its own, and prints one line for the opening and one for each call. Where a line cannot be written, the
// run ends: what stands printed is then the front of what was due.
fn run(rt: &impl Print, input: &[u8]) -> io::Result<()> {
    let mut book = [0u16; limits::DESK_BOOK_WORDS];
    let mut line = [0u8; REPLY_ROOM];
    let begun = desk_step::begin(input, &mut book, &mut line);
    let mut at = begun.taken;
    let mut count = begun.count;
    // A step tells how much of the input the next one begins behind: no range has these places.
    loop {
        rt.write_all(&line[..count])?;
        if input.len() <= at {
            return Ok(());
        }
        let step = desk_step::step(&input[at..], &mut book, &mut line);
        at += step.taken;
        count = step.count;
    }
}

// Reads until the buffer is full or the input ends, and gives what was read. (std's `read_to_end` reads to the heap, which the desk does without.)
fn read_full<'a>(reader: &mut impl Read, buffer: &'a mut [u8]) -> io::Result<&'a [u8]>
    ensures { IfOk result (λ read. length read.now ≤ length buffer.old) }
{
    let mut done = 0;
    while done < buffer.len() {
        match reader.read(&mut buffer[done..])? {
            0 => break,
            n => done += n,
        }
    }
    Ok(&buffer[..done])
}

// Reads an input and runs the desk on it.
pub fn from(rt: &impl Print, reader: &mut impl Read) -> io::Result<()> {
    let mut buffer = [0u8; READ];
    let input = read_full(reader, &mut buffer)?;
    run(rt, input)
}
