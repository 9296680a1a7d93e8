// The book: its sections and where each starts, what a look at its form gives (`book_form` takes that look), whether a slice has the size of one, and
// opening one. Assumes nothing.
#![tactic(auto)]

ghost use Rattle.std.specs.Prelude.{◌≡◌};
ghost use Rattle.words.specs.Base.{within};
ghost use Rattle.figures.specs.Answers.{answered};
ghost use Rattle.figures.specs.Limits.{head_words, most_book_words};
ghost use Rattle.figures.specs.Refusals.{number_told};
ghost use Rattle.book.specs.Decoding.{start_of, slot_of};
ghost use Rattle.book.specs.Opening.{outcome, open_of};

use figures::{Answer, Depth, Refusal, limits};

// A section of the book.
#[derive(Clone, Copy)]
pub enum Section {
    Taught,
    Tops,
    Lows,
    Middles,
}

// k, where the sections R, L and P start, and how many words are used. T starts behind the head.
#[derive(Clone, Copy)]
pub struct Places {
    pub k: Depth,
    pub tops: usize,
    pub lows: usize,
    pub middles: usize,
    pub used: usize,
}

// An entry all of whose words are there: the word past it, and its count.
#[derive(Clone, Copy)]
pub struct Whole {
    pub end: usize,
    pub count: usize,
}

// A section that is in order: the word past it, and the sum of its counts.
#[derive(Clone, Copy)]
pub struct Stretch {
    pub end: usize,
    pub sum: usize,
}

// Where a section starts.
pub fn start(section: Section, places: Places) -> usize
    ensures { result ≡ start_of section places }
{
    match section {
        Section::Taught => limits::HEAD_WORDS,
        Section::Tops => places.tops,
        Section::Lows => places.lows,
        Section::Middles => places.middles,
    }
}

// The head's word with a section's number of entries.
pub fn slot(section: Section) -> usize
    ensures { result ≡ slot_of section }
{
    match section {
        Section::Taught => limits::TAUGHT_WORD,
        Section::Tops => limits::TOPS_WORD,
        Section::Lows => limits::LOWS_WORD,
        Section::Middles => limits::MIDDLES_WORD,
    }
}

// Whether a slice of so many words has the size of a book.
pub fn is_book_size(words: usize) -> bool
    ensures { result ≡ within head_words most_book_words words }
{
    limits::HEAD_WORDS <= words && words <= limits::MOST_BOOK_WORDS
}

// Opens an empty book of that k in the slice, or refuses: 4 or 3.
fn try_open(book: &mut [u16], k: u16) -> Result<(), Refusal>
    ensures { outcome (answered (number_told result)) book.new ≡ open_of book.old k }
{
    if !is_book_size(book.len()) {
        return Err(Refusal::BookSize);
    }
    let Some(depth) = Depth::new(k) else {
        return Err(Refusal::KOutside);
    };
    words::clear(book);
    book[limits::K_WORD] = depth.value();
    book[limits::USED_WORD] = limits::HEAD_WORDS as u16;
    Ok(())
}

// Opens an empty book of that k in the slice: 4, 3, or done, with the whole slice written.
pub fn open(book: &mut [u16], k: u16) -> Answer
    ensures { outcome result book.new ≡ open_of book.old k }
{
    Answer::from(try_open(book, k))
}
