// The stored book, version 1: written from a book that agrees with itself, and read back. Assumes nothing beyond each inner function's
// `requires`.
#![tactic(auto)]

ghost use Rattle.std.specs.Prelude.{◌≡◌, [], ◌∷◌, ◌++◌, ◌-◌, ◌≤◌, length, replicate};
ghost use Rattle.figures.specs.Answers.{answered, wrote};
ghost use Rattle.figures.specs.Refusals.{number_told, count_told};
ghost use Rattle.octets.specs.Octets.{bytes_of};
ghost use Rattle.order.specs.Answers.{writing};
ghost use Rattle.book.specs.Holding.{Holds};
ghost use Rattle.book.specs.Opening.{outcome};
ghost use Rattle.book_filing.specs.Files.{mark, version, front_bytes, write_file_of, is_marked, read_rest_of, stored_number, read_file_of};

use book::Places;
use book_check::check_sections;
use book_form::in_form;
use figures::{Answer, Refusal, Written, limits};
use octets::{put_word, put_words, take_words, word_at};

// The mark of a stored book.
const MARK: &[u8; MARK_BYTES] = b"OFB";

// How many bytes the mark has.
const MARK_BYTES: usize = 3;

// "version 1 as 16 bits"
const VERSION: u16 = 1;

// The bytes before the used words: the mark's, and the version's two.
const FRONT_BYTES: usize = 5;

// ---- write

// Writes the mark and the version.
fn put_front(out: &mut [u8])
    requires { length out.old ≡ front_bytes }
    ensures { out.new ≡ mark ++ bytes_of (version ∷ []) }
{
    out[..MARK_BYTES].copy_from_slice(MARK);
    put_word(out, MARK_BYTES, VERSION);
}

// Writes the file of a book that agrees with itself to the front of `out`, or refuses: 4, 5, 9 or 11. Answers how many bytes were written.
fn try_write(book: &[u16], out: &mut [u8]) -> Result<usize, Refusal>
    ensures { writing (wrote (number_told result) (count_told result)) out.new ≡ write_file_of book.now out.old }
{
    let places = in_form(book)?;
    let checked = check_sections(book, places);
    checked?;
    let used = book[limits::USED_WORD] as usize;
    let count = FRONT_BYTES + 2 * used;
    if out.len() < count {
        return Err(Refusal::ShortOutput);
    }
    put_front(&mut out[0..FRONT_BYTES]);
    put_words(&book[0..used], &mut out[FRONT_BYTES..count]);
    Ok(count)
}

// Writes the file of a book that agrees with itself to the front of `out`: 4, 5, 9, 11, or done, and how many bytes were written.
pub fn write(book: &[u16], out: &mut [u8]) -> Written
    ensures { writing result out.new ≡ write_file_of book.now out.old }
{
    Written::from(try_write(book, out))
}

// ---- read

// Whether there are at least five bytes, with the mark in front.
fn is_marked(file: &[u8]) -> bool
    ensures { result ≡ is_marked file.now }
{
    FRONT_BYTES <= file.len() && file.starts_with(MARK)
}

// Copies words to the front of a slice that has room for them, and clears the rest of it.
fn put_book(words: &[u16], book: &mut [u16])
    requires { length words.now ≤ length book.old }
    ensures { book.new ≡ words.now ++ replicate (length book.old - length words.now) 0 }
{
    let end = words.len();
    words::copy(book, words);
    words::clear(&mut book[end..]);
}

// Whether words that are a book in form are a stored book; 14 where it does not use them all, and 9 where it does not agree with itself.
fn check_stored(words: &[u16], places: Places) -> Result<(), Refusal>
    requires { Holds words.now places }
    ensures { number_told result ≡ stored_number words.now places.used }
{
    if places.used != words.len() {
        return Err(Refusal::NoStoredBook);
    }
    check_sections(words, places)
}

// Reads words into the slice, if they are just the used words of a book, or refuses: 14, 9 or 6.
fn read_words(words: &[u16], book: &mut [u16]) -> Result<(), Refusal>
    ensures { outcome (answered (number_told result)) book.new ≡ read_rest_of (bytes_of words.now) book.old }
{
    let Ok(places) = in_form(words) else {
        return Err(Refusal::NoStoredBook);
    };
    check_stored(words, places)?;
    if book.len() < words.len() {
        return Err(Refusal::NoRoom);
    }
    put_book(words, book);
    Ok(())
}

// Reads the bytes past the version into the slice, or refuses: 14, 9 or 6. The words stand in a scratch of the size of the largest book until
// nothing can be refused any more.
fn read_rest(rest: &[u8], book: &mut [u16]) -> Result<(), Refusal>
    ensures { outcome (answered (number_told result)) book.new ≡ read_rest_of rest.now book.old }
{
    let many = rest.len() / 2;
    if rest.len() % 2 != 0 {
        return Err(Refusal::NoStoredBook);
    }
    if limits::MOST_BOOK_WORDS < many {
        return Err(Refusal::NoStoredBook);
    }
    let mut words = [0u16; limits::MOST_BOOK_WORDS];
    take_words(rest, &mut words[0..many]);
    read_words(&words[0..many], book)
}

// Reads a stored book into the slice, or refuses: 4, 12, 13, 14, 9 or 6.
fn try_read(file: &[u8], book: &mut [u16]) -> Result<(), Refusal>
    ensures { outcome (answered (number_told result)) book.new ≡ read_file_of file.now book.old }
{
    if !book::is_book_size(book.len()) {
        return Err(Refusal::BookSize);
    }
    if !is_marked(file) {
        return Err(Refusal::NoMark);
    }
    if word_at(file, MARK_BYTES) != VERSION {
        return Err(Refusal::OtherVersion);
    }
    read_rest(&file[FRONT_BYTES..], book)
}

// Reads a stored book into the slice: 4, 12, 13, 14, 9, 6, or done, with the whole slice written.
pub fn read(file: &[u8], book: &mut [u16]) -> Answer
    ensures { outcome result book.new ≡ read_file_of file.now book.old }
{
    Answer::from(try_read(file, book))
}
