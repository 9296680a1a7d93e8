// A book changed by another: weighed against it, and then changed by it, section by section. Teaching adds an order's own book, withdrawing
// takes it away, and joining adds a book of many orders. Assumes nothing beyond each function's `requires`.
#![tactic(auto)]

ghost use Rattle.std.specs.Prelude.{◌≡◌, true, ◌+◌, ◌-◌, ◌≤◌, leb, length};
ghost use Rattle.words.specs.Base.{when◌then◌else◌};
ghost use Rattle.section.specs.Entries.{section_words, entries, span, Sorted};
ghost use Rattle.section_change.specs.Editing.{fitting, Laid, Edited};
ghost use Rattle.book.specs.Book.{section_of, used, lay};
ghost use Rattle.book.specs.Decoding.{book_in};
ghost use Rattle.book.specs.Holding.{Holds};
ghost use Rattle.book_change.specs.Counts.{within_counts};
ghost use Rattle.book_change.specs.Changing.{changed, changed_in, changed_book, lives_then, LivesReady, Lacks, LacksEach, SectionStands, Ready};
ghost use Rattle.book_change.specs.Changing.{ReadyAll, weighed_in, weighed_book, lacking_parts};
ghost use Rattle.book_change.specs.declared.Change.TheVariants.{Teach};

use book::{Places, Section};
use figures::limits;
use section_change::{Size, Weighed};

// What a call does to the book.
#[derive(Clone, Copy)]
pub enum Change {
    Teach,
    Withdraw,
}

// How many words the book lacks of each of the other book's sections.
#[derive(Clone, Copy)]
pub struct Lacking {
    pub taught: usize,
    pub tops: usize,
    pub lows: usize,
    pub middles: usize,
}

// What the other book would do to the book: how many words of its sections are lacking, of each and of all, and whether a count would pass
// 65,535.
#[derive(Clone, Copy)]
pub struct BookWeighed {
    pub each: Lacking,
    pub lacking: usize,
    pub overfull: bool,
}

// What a section of the other book would do to the same section of the book.
pub fn weigh_section(
    book: &[u16],
    section: Section,
    places: Places,
    other: &[u16],
    others: Places,
) -> Weighed
    requires holds { Holds book.now places }
    requires holds_2 { Holds other.now others }
    ensures { result ≡ weighed_in section (book_in other.now) (book_in book.now) }
{
    let word = book::slot(section);
    let at = book::start(section, places);
    let from = book::start(section, others);
    let many = book[word] as usize;
    let more = other[word] as usize;
    section_change::weigh(&book[at..], many, &other[from..], more)
}

// How many words of the other book's tops, low parts and middle parts the book lacks.
pub fn lacking_parts(book: &[u16], places: Places, other: &[u16], others: Places) -> usize
    requires holds { Holds book.now places }
    requires holds_2 { Holds other.now others }
    ensures { result ≡ lacking_parts (book_in other.now) (book_in book.now) }
{
    let tops = weigh_section(book, Section::Tops, places, other, others);
    let lows = weigh_section(book, Section::Lows, places, other, others);
    let middles = weigh_section(book, Section::Middles, places, other, others);
    tops.lacking + lows.lacking + middles.lacking
}

// What the other book would do to the book.
pub fn weigh_book(book: &[u16], places: Places, other: &[u16], others: Places) -> BookWeighed
    requires holds { Holds book.now places }
    requires holds_2 { Holds other.now others }
    ensures { result ≡ weighed_book (book_in other.now) (book_in book.now) }
{
    let taught = weigh_section(book, Section::Taught, places, other, others);
    let tops = weigh_section(book, Section::Tops, places, other, others);
    let lows = weigh_section(book, Section::Lows, places, other, others);
    let middles = weigh_section(book, Section::Middles, places, other, others);
    let lacking = taught.lacking + (tops.lacking + lows.lacking + middles.lacking);
    let overfull = taught.overfull | tops.overfull | lows.overfull | middles.overfull;
    let each = Lacking {
        taught: taught.lacking,
        tops: tops.lacking,
        lows: lows.lacking,
        middles: middles.lacking,
    };
    BookWeighed {
        each,
        lacking,
        overfull,
    }
}

// Changes the first `many` entries of a part of the book by the first `more` of the other book's part. If these are added, `lacking` says how
// many of their words the part lacks.
fn change_entries(
    part: &mut [u16],
    many: usize,
    used: usize,
    other: &[u16],
    more: usize,
    lacking: usize,
    change: Change,
) -> Size
    requires laid { Laid part.old many used × Sorted (entries many part.old) }
    requires other_in_bounds { (span more other.now ≤ length other.now) × Sorted (entries more other.now) }
    requires part_in_bounds { (length (section_words (changed change (entries more other.now) (entries many part.old)))
        + (used - span many part.old) ≤ length part.old)
        × (fitting (changed change (entries more other.now) (entries many part.old)) ≡ true) }
    requires lacks { Lacks change lacking (entries more other.now) (entries many part.old) }
    ensures { Edited part.old many used (changed change (entries more other.now) (entries many part.old))
        part.new result }
{
    match change {
        Change::Teach => section_change::add_all(part, many, used, other, more, lacking),
        Change::Withdraw => section_change::lower_all(part, many, used, other, more),
    }
}

// The live teachings after a section was changed: only section T has them.
fn lives(change: Change, section: Section, live: u16, more: u16) -> u16
    requires { LivesReady change section live more }
    ensures { result ≡ lives_then change section live more }
{
    match section {
        Section::Taught => match change {
            Change::Teach => live + more,
            Change::Withdraw => live - more,
        },
        Section::Tops => live,
        Section::Lows => live,
        Section::Middles => live,
    }
}

// Changes a section of the book, which starts at word `at`, by the same section of the other book, which starts there at word `from`, and
// keeps the head right. If it is added, `lacking` says how many of its words the book lacks. Answers how many words are used then.
fn change_section(
    book: &mut [u16],
    section: Section,
    at: usize,
    uses: usize,
    other: &[u16],
    from: usize,
    lacking: usize,
    change: Change,
) -> usize
    requires section_stands { SectionStands book.old section at uses }
    requires section_stands_2 { SectionStands other.now section from (used (book_in other.now)) }
    requires ready { Ready (length book.old) change section (book_in other.now) (book_in book.old) }
    requires lacks { Lacks change lacking (section_of section (book_in other.now)) (section_of section (book_in book.old)) }
    ensures came { result ≡ used (changed_in change section (book_in other.now) (book_in book.old)) }
    ensures wrote { book.new ≡ lay (length book.old)
        (changed_in change section (book_in other.now) (book_in book.old)) }
{
    let word = book::slot(section);
    let many = book[word] as usize;
    let more = other[word] as usize;
    let live = lives(
        change,
        section,
        book[limits::LIVE_WORD],
        other[limits::LIVE_WORD],
    );
    let size = change_entries(
        &mut book[at..],
        many,
        uses - at,
        &other[from..],
        more,
        lacking,
        change,
    );
    let end = at + size.used;
    book[limits::USED_WORD] = end as u16;
    book[limits::LIVE_WORD] = live;
    book[word] = size.many as u16;
    end
}

// Changes the book by the other book, its last section first, so that the sections before it still start where they did. If it is
// added, `lacks` says how many words of each of its sections the book lacks.
pub fn change_book(
    book: &mut [u16],
    places: Places,
    other: &[u16],
    others: Places,
    lacks: Lacking,
    change: Change,
)
    requires holds { Holds book.old places }
    requires holds_2 { Holds other.now others }
    requires ready_all { ReadyAll (length book.old) change (book_in other.now) (book_in book.old) }
    requires lacks_each { LacksEach change lacks (book_in other.now) (book_in book.old) }
    ensures { book.new ≡ lay (length book.old)
        (changed_book change (book_in other.now) (book_in book.old)) }
{
    let p = change_section(
        book,
        Section::Middles,
        places.middles,
        places.used,
        other,
        others.middles,
        lacks.middles,
        change,
    );
    let l = change_section(
        book,
        Section::Lows,
        places.lows,
        p,
        other,
        others.lows,
        lacks.lows,
        change,
    );
    let r = change_section(
        book,
        Section::Tops,
        places.tops,
        l,
        other,
        others.tops,
        lacks.tops,
        change,
    );
    let at = limits::HEAD_WORDS;
    change_section(
        book,
        Section::Taught,
        at,
        r,
        other,
        at,
        lacks.taught,
        change,
    );
}

// Adds another book of the same k, if there is room for what the book lacks of it. Answers whether there was.
pub fn add_book(book: &mut [u16], places: Places, other: &[u16], others: Places) -> bool
    requires holds { Holds book.old places }
    requires holds_2 { Holds other.now others }
    requires other_value { ((book_in other.now).k ≡ (book_in book.old).k)
        × (within_counts (changed_book Teach (book_in other.now) (book_in book.old)) ≡ true) }
    ensures came { result ≡ leb (used (changed_book Teach (book_in other.now) (book_in book.old)))
        (length book.old) }
    ensures wrote { book.new ≡
        (when result then lay (length book.old) (changed_book Teach (book_in other.now) (book_in book.old))
        else book.old) }
{
    let weighed = weigh_book(book, places, other, others);
    if book.len() - places.used < weighed.lacking {
        return false;
    }
    change_book(book, places, other, others, weighed.each, Change::Teach);
    true
}
