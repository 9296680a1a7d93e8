// Counts tallied for the entries of a section: an index of their places, the entry of a key by halving, and more for the entry of a key,
// once a turn. It knows nothing of trees, and assumes nothing beyond each function's `requires`.
#![tactic(auto)]

ghost use Rattle.std.specs.Prelude.{◌≡◌, ◌+◌, ◌≤◌, length, get_or, drop};
ghost use Rattle.words.specs.Base.{over};
ghost use Rattle.words.specs.Compare.{compare_of};
ghost use Rattle.figures.specs.Limits.{most_book_words};
ghost use Rattle.section.specs.Entries.{width, first_entry, span, has};
ghost use Rattle.section_tally.specs.Tallying.{starts_of, listed, Indexed, sought_in, Few, tallied_once, marked_once, same_counts};

use section::past;
use std::cmp::Ordering;

// Writes where the n entries from word `from` on start, to the front of `starts`.
pub fn index(book: &[u16], from: usize, n: usize, starts: &mut [u16])
    requires book_in_bounds { from + span n (drop from book.now) ≤ length book.now }
    requires book_len_bound { length book.now ≤ most_book_words }
    requires n_in_bounds { n ≤ length starts.old }
    ensures { starts.new ≡ over (starts_of from n (drop from book.now)) starts.old }
{
    let mut at = from;
    for start in starts[..n].iter_mut() {
        *start = at as u16;
        at = past(book, at);
    }
}

// How the key of the entry at word `at`, which has words, stands to another key with this first word: mostly the first words decide.
fn against(book: &[u16], at: usize, key: &[u16], first: u16) -> Ordering
    requires book_in_bounds { at + width (drop at book.now) ≤ length book.now }
    requires in_bounds { (1 ≤ length (first_entry (drop at book.now)).key) × (first ≡ get_or key.now 0 0) }
    ensures { result ≡ compare_of (first_entry (drop at book.now)).key key.now }
{
    let start = at + 2;
    let word = book[start];
    if word != first {
        return word.cmp(&first);
    }
    let end = past(book, at);
    words::standing(&book[start..end], key)
}

// Which of the listed entries has the key: the range that it can stand in is halved until it is found or none is left.
pub fn find_entry(book: &[u16], starts: &[u16], key: &[u16]) -> Option<usize>
    requires { Indexed starts.now book.now }
    ensures { result ≡ sought_in key.now (listed starts.now book.now) }
{
    let first = words::first(key);
    let mut low: usize = 0;
    let mut high = starts.len();
    // A slice's own `binary_search_by` would ask `against` of any place, and it may be asked only of one that is listed.
    while low < high {
        let mid = low + (high - low) / 2;
        let at = starts[mid] as usize;
        match against(book, at, key, first) {
            Ordering::Less => {
                low = mid + 1;
            }
            Ordering::Equal => return Some(mid),
            Ordering::Greater => {
                high = mid;
            }
        }
    }
    None
}

// Tallies `by` more for the listed entry that has the key, once a turn: its mark is the turn's number then. Answers whether one has it.
pub fn tally_once(
    book: &[u16],
    starts: &[u16],
    counts: &mut [u16],
    marks: &mut [u16],
    key: &[u16],
    turn: u16,
    by: u16,
) -> bool
    requires indexed { Indexed starts.now book.now }
    requires counts_len { (length counts.old ≡ length starts.now) × (length marks.old ≡ length starts.now) }
    requires few { Few (tallied_once by turn (sought_in key.now (listed starts.now book.now)) marks.old counts.old) }
    ensures known { result ≡ has key.now (listed starts.now book.now) }
    ensures counted { counts.new ≡ tallied_once by turn (sought_in key.now (listed starts.now book.now))
        marks.old counts.old }
    ensures noted { marks.new ≡ marked_once turn (sought_in key.now (listed starts.now book.now))
        marks.old }
{
    let Some(i) = find_entry(book, starts, key) else {
        return false;
    };
    if marks[i] != turn {
        counts[i] += by;
        marks[i] = turn;
    }
    true
}

// Whether each listed entry counts what was tallied for it.
pub fn same_counts(book: &[u16], starts: &[u16], counts: &[u16]) -> bool
    requires indexed { Indexed starts.now book.now }
    requires counts_len { length counts.now ≡ length starts.now }
    ensures { result ≡ same_counts (listed starts.now book.now) counts.now }
{
    for (at, count) in starts.iter().zip(counts) {
        let says = book[*at as usize + 1];
        if says != *count {
            return false;
        }
    }
    true
}
