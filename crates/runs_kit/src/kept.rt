// What is kept from line to line: two books, and a file. Assumes nothing.
use crate::fault::Fault;
use crate::line;
use figures::limits;
use std::alloc::Global;
use std::mem;

// The bytes that a kept file may have: more than the file of the largest book has.
pub const MOST_FILE: usize = 32800;

// The words that a kept book may have: one more than the largest has.
const MOST_BOOK: usize = limits::MOST_BOOK_WORDS + 1;

// What every word of a slice holds before a book is opened in it or read into it.
pub const BEFORE: u16 = 9;

// What is kept: the book and the file of which the cases speak, and another book.
#[derive(Drop)]
pub struct Kept {
    pub book: Vec<u16>,
    pub other: Vec<u16>,
    pub file: Vec<u8>,
}

impl Kept {
    // What is kept before the first line: nothing.
    pub fn new(alloc: Global) -> Kept {
        Kept {
            book: Vec::new(alloc),
            other: Vec::new(alloc),
            file: Vec::new(alloc),
        }
    }

    // Keeps words as the book, if it may have so many.
    pub fn keep_book(&mut self, alloc: Global, words: &[u16]) -> Result<(), Fault> {
        line::room(words.len(), MOST_BOOK)?;
        self.book = words.to_vec(alloc)?;
        Ok(())
    }

    // Keeps the bytes that these words are as the file, if each is one and the file may have so many.
    pub fn keep_file(&mut self, alloc: Global, words: &[u16]) -> Result<(), Fault> {
        line::room(words.len(), MOST_FILE)?;
        self.file = bytes(alloc, words)?;
        Ok(())
    }

    // Puts the bytes that these words are behind those of the file, likewise.
    pub fn add_to_file(&mut self, alloc: Global, words: &[u16]) -> Result<(), Fault> {
        line::room(self.file.len() + words.len(), MOST_FILE)?;
        self.file.extend_from_slice(&bytes(alloc, words)?)?;
        Ok(())
    }

    // Lets the two books change places.
    pub fn swap_books(&mut self) {
        mem::swap(&mut self.book, &mut self.other);
    }
}

// The bytes that these words are.
fn bytes(alloc: Global, words: &[u16]) -> Result<Vec<u8>, Fault> {
    words
        .iter()
        .map(|word| u8::try_from(*word).map_err(|_| Fault::NotUnderstood))
        .try_collect(alloc)
}

// A slice of so many words, in which a book is to be opened or into which one is to be read, if it may have so many.
pub fn slice(alloc: Global, room: u16) -> Result<Vec<u16>, Fault> {
    let room = line::room(usize::from(room), MOST_BOOK)?;
    Ok(vec![in alloc; BEFORE; room]?)
}
