// A section of a book changed by the entries of another, both with ascending keys: each pass reads both once.
// What the other would enter is weighed first; then it is added, or one less of each is taken. Adding opens a gap in front for all that is
// lacking, and moves what it has passed down over it; taking moves what it has passed down over what it took out. Assumes nothing beyond each
// function's `requires`.
#![tactic(auto)]

ghost use Rattle.std.specs.Prelude.{◌≡◌, true, ◌++◌, ◌+◌, ◌*◌, ◌-◌, ◌≤◌, length, get_or, set, take, drop};
ghost use Rattle.figures.specs.Limits.{greatest_count};
ghost use Rattle.section.specs.Entries.{section_words, width, first_entry, entries, span, Sorted, add_once};
ghost use Rattle.section_change.specs.Editing.{add_all, lower_all, fitting, lacking_words, weighed, first_against, Laid, Edited, brought, entered};
ghost use Rattle.section_change.specs.Editing.{lessened_words, lessened_by};

use figures::limits;
use section::{past, search};
use std::cmp::Ordering;

// How many words of a part are used, and how many entries stand at its front.
#[derive(Clone, Copy)]
pub struct Size {
    pub used: usize,
    pub many: usize,
}

// What a section's entries would do to another section: how many words those take that it lacks, and whether a count would pass 65,535. (Both are told at
// once: what is lacking is known however the counts are.)
#[derive(Clone, Copy)]
pub struct Weighed {
    pub lacking: usize,
    pub overfull: bool,
}

// What one less of an entry came to: where the gap starts and ends then, which word comes past the entry, and how many entries were taken out.
#[derive(Clone, Copy)]
pub struct Lessened {
    pub to: usize,
    pub kept: usize,
    pub next: usize,
    pub out: usize,
}

// How the first of the entries left, which stand from word `at` on, stands to a key; as higher where none is left.
fn first_against(book: &[u16], at: usize, left: usize, key: &[u16]) -> Ordering
    requires { at + span left (drop at book.now) ≤ length book.now }
    ensures { result ≡ first_against key.now (entries left (drop at book.now)) }
{
    if left == 0 {
        return Ordering::Greater;
    }
    let start = at + 2;
    let end = past(book, at);
    words::standing(&book[start..end], key)
}

// What the first `more` entries of `other` would do to the first `many` of `book`, in one pass over both.
pub fn weigh(book: &[u16], many: usize, other: &[u16], more: usize) -> Weighed
    requires book_in_bounds { (span many book.now ≤ length book.now) × Sorted (entries many book.now) }
    requires other_in_bounds { (span more other.now ≤ length other.now) × (Sorted (entries more other.now) × (fitting (entries more other.now) ≡ true)) }
    ensures { result ≡ weighed (entries more other.now) (entries many book.now) }
{
    let mut at: usize = 0;
    let mut left = many;
    let mut from: usize = 0;
    let mut rest = more;
    let mut lacking: usize = 0;
    let mut overfull = false;
    // Each turn passes an entry of the one row, of the other, or of both: no `for` counts that.
    while 0 < rest {
        let start = from + 2;
        let end = past(other, from);
        match first_against(book, at, left, &other[start..end]) {
            Ordering::Less => {
                at = past(book, at);
                left -= 1;
            }
            Ordering::Equal => {
                if limits::GREATEST_COUNT - other[from + 1] < book[at + 1] {
                    overfull = true;
                }
                at = past(book, at);
                left -= 1;
                from = end;
                rest -= 1;
            }
            Ordering::Greater => {
                lacking += end - from;
                from = end;
                rest -= 1;
            }
        }
    }
    Weighed { lacking, overfull }
}

// Writes an entry's words at the front of the part, and moves the `used` words that stand there behind them.
fn enter(part: &mut [u16], used: usize, entry: &[u16])
    requires { used + length entry.now ≤ length part.old }
    ensures { part.new ≡ entry.now
        ++ (take used part.old ++ drop (used + length entry.now) part.old) }
{
    words::open_gap(part, used, entry.len());
    words::copy(part, entry);
}

// Raises the count of the part's first entry.
fn raise(part: &mut [u16], by: u16)
    requires { (2 ≤ length part.old) × (get_or part.old 1 0 + by ≤ greatest_count) }
    ensures { part.new ≡ set part.old 1 (get_or part.old 1 0 + by) }
{
    part[1] += by;
}

// Enters an entry among the `many` at the front of the part, unless one of them has its key. Answers the size then.
pub fn enter_once(part: &mut [u16], many: usize, used: usize, entry: &[u16]) -> Size
    requires laid { Laid part.old many used × Sorted (entries many part.old) }
    requires value { (width entry.now ≡ length entry.now) × (used + length entry.now ≤ length part.old) }
    ensures { Edited part.old many used (add_once (first_entry entry.now) (entries many part.old))
        part.new result }
{
    let end = entry.len();
    let stop = search(part, 0, many, &entry[2..end]);
    if stop.there {
        return Size { used, many };
    }
    let at = stop.at;
    enter(&mut part[at..], used - at, entry);
    Size {
        used: used + end,
        many: many + 1,
    }
}

// Moves the words from `kept` up to `at` down to word `to`. Answers where they end then.
fn bring_down(book: &mut [u16], to: usize, kept: usize, at: usize) -> usize
    requires { (to ≤ kept) × (kept ≤ at) × (at ≤ length book.old) }
    ensures { (book.new ≡ brought to kept at book.old) × (result ≡ to + (at - kept)) }
{
    let passed = at - kept;
    words::slide(&mut book[to..], kept - to, passed);
    to + passed
}

// Moves the words from `kept` up to `at` down to word `to`, and writes an entry's words behind them. Answers where these end.
fn enter_behind(book: &mut [u16], to: usize, kept: usize, at: usize, entry: &[u16]) -> usize
    requires { (to + length entry.now ≤ kept) × (kept ≤ at) × (at ≤ length book.old) }
    ensures { (book.new ≡ entered to kept at entry.now book.old)
        × (result ≡ to + (at - kept) + length entry.now) }
{
    let end = bring_down(book, to, kept, at);
    words::copy(&mut book[end..], entry);
    end + entry.len()
}

// Adds the first `more` entries of `other` to the first `many` of `book`, in one pass over both: counts are raised by the other's, and what is
// lacking is entered from a gap of `lacking` words, which is opened first. Before `to` all stands where it belongs, and from `kept` up to `at`
// what was passed and has not moved down yet. Answers the size then.
pub fn add_all(
    book: &mut [u16],
    many: usize,
    used: usize,
    other: &[u16],
    more: usize,
    lacking: usize,
) -> Size
    requires laid { Laid book.old many used × Sorted (entries many book.old) }
    requires other_in_bounds { (span more other.now ≤ length other.now) × Sorted (entries more other.now) }
    requires book_in_bounds { (length (section_words (add_all (entries more other.now) (entries many book.old)))
        + (used - span many book.old) ≤ length book.old) × (fitting (add_all (entries more other.now) (entries many book.old)) ≡ true) }
    requires lacking_value { lacking ≡ lacking_words (entries more other.now) (entries many book.old) }
    ensures { Edited book.old many used (add_all (entries more other.now) (entries many book.old))
        book.new result }
{
    words::open_gap(book, used, lacking);
    let mut to: usize = 0;
    let mut kept = lacking;
    let mut at = lacking;
    let mut left = many;
    let mut from: usize = 0;
    let mut rest = more;
    let mut count = many;
    // Each turn passes an entry of the one row, of the other, or of both: no `for` counts that.
    while 0 < rest {
        let start = from + 2;
        let end = past(other, from);
        match first_against(book, at, left, &other[start..end]) {
            Ordering::Less => {
                at = past(book, at);
                left -= 1;
            }
            Ordering::Equal => {
                raise(&mut book[at..], other[from + 1]);
                at = past(book, at);
                left -= 1;
                from = end;
                rest -= 1;
            }
            Ordering::Greater => {
                to = enter_behind(book, to, kept, at, &other[from..end]);
                kept = at;
                count += 1;
                from = end;
                rest -= 1;
            }
        }
    }
    let uses = used + lacking;
    Size {
        used: uses,
        many: count,
    }
}

// One less of the entry at `at`. If it comes to 0 the gap from `to` up to `kept` moves behind the words between the two, and then holds the
// entry as well.
fn lessen(book: &mut [u16], to: usize, kept: usize, at: usize) -> Lessened
    requires { (to ≤ kept) × (kept ≤ at) × (at + 2 + 2 * get_or book.old at 0 ≤ length book.old) }
    ensures { (book.new ≡ lessened_words to kept at book.old) × (result ≡ lessened_by to kept at book.old) }
{
    let next = past(book, at);
    if book[at + 1] <= 1 {
        let end = bring_down(book, to, kept, at);
        return Lessened {
            to: end,
            kept: next,
            next,
            out: 1,
        };
    }
    book[at + 1] -= 1;
    Lessened {
        to,
        kept,
        next,
        out: 0,
    }
}

// One less of each key of the first `more` entries of `other` among the first `many` of `book`, in one pass over both.
// Before `to` all stands where it belongs, and from `kept` up to `at` what was passed and has not moved down yet. Answers the size then.
pub fn lower_all(book: &mut [u16], many: usize, used: usize, other: &[u16], more: usize) -> Size
    requires laid { Laid book.old many used × Sorted (entries many book.old) }
    requires other_in_bounds { (span more other.now ≤ length other.now) × Sorted (entries more other.now) }
    ensures { Edited book.old many used (lower_all (entries more other.now) (entries many book.old))
        book.new result }
{
    let mut to: usize = 0;
    let mut kept: usize = 0;
    let mut at: usize = 0;
    let mut left = many;
    let mut from: usize = 0;
    let mut rest = more;
    let mut count = many;
    // Each turn passes an entry of the one row, of the other, or of both: no `for` counts that.
    while 0 < rest {
        let start = from + 2;
        let end = past(other, from);
        match first_against(book, at, left, &other[start..end]) {
            Ordering::Less => {
                at = past(book, at);
                left -= 1;
            }
            Ordering::Equal => {
                let less = lessen(book, to, kept, at);
                to = less.to;
                kept = less.kept;
                at = less.next;
                count -= less.out;
                left -= 1;
                from = end;
                rest -= 1;
            }
            Ordering::Greater => {
                from = end;
                rest -= 1;
            }
        }
    }
    let freed = kept - to;
    words::close_gap(&mut book[to..], used - to, freed);
    let uses = used - freed;
    Size {
        used: uses,
        many: count,
    }
}
