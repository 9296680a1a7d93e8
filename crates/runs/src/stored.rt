// What comes of a case of stored books, or of two books:
//   file B B ..         the kept file is these bytes from now on
//   more B B ..         these bytes are put behind those of the kept file
//   put AT BYTE         the byte at place AT of the kept file, from 0 on, is this one from now on
//   store ROOM          the file of the kept book is written to an output of so many bytes, each # before, and is the kept file from now on
//   load ROOM           the kept file is read into a slice of so many words, each 9 before
//   front N ROOM        so are its first N bytes
//   with AT BYTE ROOM   so is that file with another byte at place AT
//   start ROOM          it is read into the kept book's slice, which has so many words from now on, each 9 before
//   trip                the file of the kept book is written, and read into a slice of as many words as the book's
//   again               the kept file is read into a slice of 16,384 words, and what is read is written
//   swap                the kept book and the other, of which there is none at first, change places
// All calls are made through the functions for C (`ofb`).
ghost use Rattle.std.specs.Prelude.{◌≤◌, length, IfOk};

use crate::forms;
use figures::limits::MOST_BOOK_WORDS;
use figures::numbers::DONE;
use runs_kit::fault::Fault;
use runs_kit::kept::{self, BEFORE, Kept, MOST_FILE};
use runs_kit::lent::{self, HELD_BYTE};
use runs_kit::say::Slice;
use runs_kit::{line, say};
use std::{fmt, mem};

// Runs a case of `file`, and says how many bytes the file has.
pub fn file(rt: &(impl Print + AllocGlobal), given: &[u16], kept: &mut Kept) -> Result<(), Fault> {
    kept.keep_file(rt.alloc(), given)?;
    print!(rt; "{} bytes", kept.file.len())?;
    Ok(())
}

// Runs a case of `more`, and says how many bytes the file has then.
pub fn more(rt: &(impl Print + AllocGlobal), given: &[u16], kept: &mut Kept) -> Result<(), Fault> {
    kept.add_to_file(rt.alloc(), given)?;
    print!(rt; "{} bytes", kept.file.len())?;
    Ok(())
}

// Puts a byte at a place of a file, and gives the one that stood there; where there is no such place or no such byte, nothing is put.
fn change(file: &mut [u8], at: u16, byte: u16) -> Option<u8> {
    let byte = u8::try_from(byte).ok()?;
    let place = file.get_mut(usize::from(at))?;
    Some(mem::replace(place, byte))
}

// Runs a case of `put`, and says the byte that stood there.
pub fn put(rt: &impl Print, given: &[u16], kept: &mut Kept) -> Result<(), Fault> {
    let &[at, byte] = given else {
        return Err(Fault::NotUnderstood);
    };
    let old = change(&mut kept.file, at, byte).ok_or(Fault::NotUnderstood)?;
    print!(rt; "was {old}")?;
    Ok(())
}

// Runs a case of `store`; where nothing was written, the kept file stays.
pub fn store(rt: &(impl Print + AllocGlobal), given: &[u16], kept: &mut Kept) -> Result<(), Fault> {
    let &[room] = given else {
        return Err(Fault::NotUnderstood);
    };
    let room = line::room(usize::from(room), MOST_FILE)?;
    let mut out = vec![in rt.alloc(); HELD_BYTE; room]?;
    let written = forms::told(ofb::ofb_write_file(&kept.book, &mut out));
    lent::bytes(rt, written, &out)?;
    if (1..=out.len()).contains(&written.count) {
        out.truncate(written.count);
        kept.file = out;
    }
    Ok(())
}

// Reads a file into a slice of so many words, says the answer and every word of the slice, and gives it.
fn read_in(rt: &(impl Print + AllocGlobal), file: &[u8], room: u16) -> Result<Vec<u16>, Fault> {
    let mut slice = kept::slice(rt.alloc(), room)?;
    let answer = ofb::ofb_read_file(file, &mut slice);
    print!(rt; "{}, line {}:{}", answer.number, answer.line, Slice(&slice))?;
    Ok(slice)
}

// Runs a case of `load`.
pub fn load(rt: &(impl Print + AllocGlobal), given: &[u16], kept: &Kept) -> Result<(), Fault> {
    let &[room] = given else {
        return Err(Fault::NotUnderstood);
    };
    read_in(rt, &kept.file, room)?;
    Ok(())
}

// Runs a case of `start`.
pub fn start(rt: &(impl Print + AllocGlobal), given: &[u16], kept: &mut Kept) -> Result<(), Fault> {
    let &[room] = given else {
        return Err(Fault::NotUnderstood);
    };
    kept.book = read_in(rt, &kept.file, room)?;
    Ok(())
}

// Runs a case of `front`.
pub fn front(rt: &(impl Print + AllocGlobal), given: &[u16], kept: &Kept) -> Result<(), Fault> {
    let &[count, room] = given else {
        return Err(Fault::NotUnderstood);
    };
    let front = kept
        .file
        .get(..usize::from(count))
        .ok_or(Fault::NotUnderstood)?;
    read_in(rt, front, room)?;
    Ok(())
}

// Runs a case of `with`; the kept file stays.
pub fn with(rt: &(impl Print + AllocGlobal), given: &[u16], kept: &Kept) -> Result<(), Fault> {
    let &[at, byte, room] = given else {
        return Err(Fault::NotUnderstood);
    };
    let mut file = kept.file.clone()?;
    change(&mut file, at, byte).ok_or(Fault::NotUnderstood)?;
    read_in(rt, &file, room)?;
    Ok(())
}

// Why a book is not written and read back, or a file not read and written back.
#[derive(Clone, Copy)]
enum Stopped {
    WritingRefused(u16),
    ReadingRefused(u16),
    MoreThanLent,
}

impl fmt::Display for Stopped {
    fn fmt<W: fmt::Write>(&self, f: &mut fmt::Formatter<W>) -> fmt::Result {
        match self {
            Stopped::WritingRefused(number) => write!(f, "writing refused by {number}"),
            Stopped::ReadingRefused(number) => write!(f, "reading refused by {number}"),
            Stopped::MoreThanLent => write!(f, "more than was lent"),
        }
    }
}

// Writes the file of a book to an output, and gives what was written.
fn written<'a>(book: &[u16], out: &'a mut [u8]) -> Result<&'a [u8], Stopped>
    ensures { IfOk result (λ file. length file.now ≤ length out.old) }
{
    let answer = ofb::ofb_write_file(book, out);
    if answer.number != DONE {
        return Err(Stopped::WritingRefused(answer.number));
    }
    out.get(..answer.written as usize)
        .ok_or(Stopped::MoreThanLent)
}

// Reads a file into a slice.
fn read(file: &[u8], slice: &mut [u16]) -> Result<(), Stopped> {
    match ofb::ofb_read_file(file, slice).number {
        DONE => Ok(()),
        number => Err(Stopped::ReadingRefused(number)),
    }
}

// Whether a book comes back from its file in every word, by an output for the file and a slice of as many words.
fn is_back(book: &[u16], out: &mut [u8], slice: &mut [u16]) -> Result<bool, Stopped> {
    read(written(book, out)?, slice)?;
    Ok(book == slice)
}

// Whether a file comes back from what is read of it, by a slice for that and an output.
fn is_again(file: &[u8], slice: &mut [u16], out: &mut [u8]) -> Result<bool, Stopped> {
    read(file, slice)?;
    Ok(file == written(slice, out)?)
}

// Says whether what came back is the same, or why nothing did.
fn said(rt: &impl Print, back: Result<bool, Stopped>) -> Result<(), Fault> {
    match back {
        Ok(same) => print!(rt; "{}", say::came_back(same))?,
        Err(stopped) => print!(rt; "{stopped}")?,
    }
    Ok(())
}

// Runs a case of `trip`.
pub fn trip(rt: &(impl Print + AllocGlobal), given: &[u16], kept: &Kept) -> Result<(), Fault> {
    if !given.is_empty() {
        return Err(Fault::NotUnderstood);
    }
    let mut out = vec![in rt.alloc(); HELD_BYTE; MOST_FILE]?;
    let mut slice = vec![in rt.alloc(); BEFORE; kept.book.len()]?;
    said(rt, is_back(&kept.book, &mut out, &mut slice))
}

// Runs a case of `again`.
pub fn again(rt: &(impl Print + AllocGlobal), given: &[u16], kept: &Kept) -> Result<(), Fault> {
    if !given.is_empty() {
        return Err(Fault::NotUnderstood);
    }
    let mut slice = vec![in rt.alloc(); BEFORE; MOST_BOOK_WORDS]?;
    let mut out = vec![in rt.alloc(); HELD_BYTE; MOST_FILE]?;
    said(rt, is_again(&kept.file, &mut slice, &mut out))
}

// Runs a case of `swap`.
pub fn swap(rt: &impl Print, given: &[u16], kept: &mut Kept) -> Result<(), Fault> {
    if !given.is_empty() {
        return Err(Fault::NotUnderstood);
    }
    kept.swap_books();
    print!(rt; "done")?;
    Ok(())
}
