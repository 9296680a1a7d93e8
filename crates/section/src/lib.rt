// Sections of a book: counted entries one after the other in a lent slice, their keys ascending. It knows nothing of trees, and assumes
// nothing beyond each function's `requires`.
#![tactic(auto)]

ghost use Rattle.std.specs.Prelude.{◌≡◌, ◌+◌, ◌*◌, ◌≤◌, ◌<◌, length, get_or, drop};
ghost use Rattle.section.specs.Entries.{entries, span, look};
ghost use Rattle.section.specs.Near.{near_in, place_at, SearchedTo};

// Where a key's entry stands or would stand, and how many entries stand below it; for a key that has none, the place of the first word, counted
// from 1, in which it differs from the last entry below it and from the first above it, 0 where there is no such entry. (Not a `Result`: to be
// absent is no failure, and both cases have places.)
#[derive(Clone, Copy)]
pub enum Found {
    At {
        at: usize,
        below: usize,
    },
    Absent {
        at: usize,
        below: usize,
        low: usize,
        high: usize,
    },
}

// Where a search has stopped: whether at the key's entry, the last entry that it has passed, the word that it has come to, and how many entries
// are left there. (Its words stand whether it is there or not.)
#[derive(Clone, Copy)]
pub struct Stop {
    pub there: bool,
    pub last: usize,
    pub at: usize,
    pub left: usize,
}

// A key's neighbours in a section: how many entries stand below it, whether it is there, and the places of its first difference from the last
// entry below and from the first above, 0 where there is no such entry. (So C has them, in `ofb_judged`.)
#[derive(Clone, Copy)]
pub struct Neighbours {
    pub below: usize,
    pub there: bool,
    pub low: usize,
    pub high: usize,
}

// What a search says of a key's neighbours.
pub fn around(found: Found) -> Neighbours
    ensures { result ≡ near_in found }
{
    match found {
        Found::At { at: _, below } => Neighbours {
            below,
            there: true,
            low: 0,
            high: 0,
        },
        Found::Absent {
            at: _,
            below,
            low,
            high,
        } => Neighbours {
            below,
            there: false,
            low,
            high,
        },
    }
}

// The word past the entry at `at`, which lies within the book.
pub fn past(book: &[u16], at: usize) -> usize
    requires { at + 2 + 2 * get_or book.now at 0 ≤ length book.now }
    ensures { result ≡ at + 2 + 2 * get_or book.now at 0 }
{
    let nodes = book[at] as usize;
    at + 2 + 2 * nodes
}

// The place of the first word, counted from 1, in which the entry at word `at`, the first of some, differs from the key; 0 where there is none.
pub fn place_at(book: &[u16], at: usize, some: usize, key: &[u16]) -> usize
    requires { 0 < some → at + 2 + 2 * get_or book.now at 0 ≤ length book.now }
    ensures { result ≡ place_at key.now book.now at some }
{
    if some == 0 {
        return 0;
    }
    let start = at + 2;
    let end = past(book, at);
    words::size(words::compare(&book[start..end], key))
}

// Seeks the key's entry among the n entries from word `from`; the search ends at the first entry that is not lower.
pub fn search(book: &[u16], from: usize, n: usize, key: &[u16]) -> Stop
    requires { from + span n (drop from book.now) ≤ length book.now }
    ensures { SearchedTo book.now key.now from n result }
{
    let mut last = from;
    let mut at = from;
    for passed in 0..n {
        let start = at + 2;
        let end = past(book, at);
        let stands = words::standing(&book[start..end], key);
        if stands.is_ge() {
            return Stop {
                there: stands.is_eq(),
                last,
                at,
                left: n - passed,
            };
        }
        last = at;
        at = end;
    }
    Stop {
        there: false,
        last,
        at,
        left: 0,
    }
}

// Where the key's entry stands among the n entries from word `from`, or would stand, and between which neighbours.
pub fn find(book: &[u16], from: usize, n: usize, key: &[u16]) -> Found
    requires { from + span n (drop from book.now) ≤ length book.now }
    ensures { result ≡ look key.now from 0 0 (entries n (drop from book.now)) }
{
    let stop = search(book, from, n, key);
    let at = stop.at;
    let below = n - stop.left;
    if stop.there {
        return Found::At { at, below };
    }
    let low = place_at(book, stop.last, below, key);
    let high = place_at(book, at, stop.left, key);
    Found::Absent {
        at,
        below,
        low,
        high,
    }
}
