// The look at a book's form: whether a lent slice of words is a book in form, and where its sections start. Assumes nothing beyond each
// inner function's `requires`.
#![tactic(auto)]

ghost use Rattle.std.specs.Prelude.{◌≡◌, ◌≤◌, length, drop};
ghost use Rattle.figures.specs.Limits.{most_nodes, greatest_depth, head_words, most_book_words};
ghost use Rattle.book.specs.Decoding.{looked, looked_at, book_form_of};
ghost use Rattle.book.specs.Passes.{whole_at, stretch_of, zeros, head_of};

use book::{Places, Stretch, Whole, is_book_size};
use figures::{Depth, Refusal, limits};
use std::cmp::max;

// The entry at word `at`, if all its words are there.
fn whole_at(book: &[u16], at: usize) -> Option<Whole>
    ensures { result ≡ whole_at book.now at }
{
    let [nodes, count, behind @ ..] = book.get(at..)? else {
        return None;
    };
    let key = 2 * usize::from(*nodes);
    if behind.len() < key {
        return None;
    }
    Some(Whole {
        end: at + 2 + key,
        count: usize::from(*count),
    })
}

// One pass over the n entries from `from`: each is whole, counts at least 1, stands above the one before it, and is an order of a depth from
// `least` to `greatest`, by a lent stack of depths.
fn pass(
    book: &[u16],
    from: usize,
    n: u16,
    least: usize,
    greatest: usize,
    stack: &mut [u16],
) -> Option<Stretch>
    requires { (greatest ≤ greatest_depth) × (most_nodes ≤ length stack.old) }
    ensures came { result ≡ stretch_of book.now from n least greatest }
    ensures kept { length stack.new ≡ length stack.old }
{
    let mut at = from;
    let mut sum = 0;
    let mut last = &book[..0];
    for _ in 0..n {
        let Whole { end, count } = whole_at(book, at)?;
        let key = &book[at + 2..end];
        if count < limits::LEAST_COUNT {
            return None;
        }
        if !words::precedes(last, key) {
            return None;
        }
        if !order_fit::fits(key, least, greatest, stack) {
            return None;
        }
        last = key;
        at = end;
        sum += count;
    }
    Some(Stretch { end: at, sum })
}

// Whether every word from `at` on is zero, by the greatest of them: no word ends the loop early, so that a processor can look at several at once.
fn zeros_from(book: &[u16], at: usize) -> bool
    ensures { result ≡ zeros (drop at book.now) }
{
    let Some(rest) = book.get(at..) else {
        return true;
    };
    rest.iter().fold(0, |greatest, word| max(greatest, *word)) == 0
}

// Whether the head says how many teachings are live and how many words are used, and the words past these are zero.
fn head_right(book: &[u16], live: usize, used: usize) -> bool
    requires { head_words ≤ length book.now }
    ensures { result ≡ head_of book.now live used }
{
    live == usize::from(book[limits::LIVE_WORD])
        && used == usize::from(book[limits::USED_WORD])
        && zeros_from(book, used)
}

// Where the sections of a book start, if words of its size are one in form: a pass over each section, and a look at the head.
fn sections(book: &[u16]) -> Option<Places>
    requires { (head_words ≤ length book.now) × (length book.now ≤ most_book_words) }
    ensures { looked_at result ≡ book_form_of book.now }
{
    let k = Depth::new(book[limits::K_WORD])?;
    let low = k.of_tops();
    let middle = k.of_middles();
    let mut stack = [0u16; limits::MOST_NODES];
    let taught = pass(
        book,
        limits::HEAD_WORDS,
        book[limits::TAUGHT_WORD],
        0,
        limits::GREATEST_DEPTH,
        &mut stack,
    )?;
    let tops = taught.end;
    let lows = pass(book, tops, book[limits::TOPS_WORD], 0, low, &mut stack)?.end;
    let middles = pass(book, lows, book[limits::LOWS_WORD], 0, low, &mut stack)?.end;
    let used = pass(
        book,
        middles,
        book[limits::MIDDLES_WORD],
        middle,
        middle,
        &mut stack,
    )?
    .end;
    if !head_right(book, taught.sum, used) {
        return None;
    }
    Some(Places {
        k,
        tops,
        lows,
        middles,
        used,
    })
}

// Whether the words are a book in form, in one pass over them, and where its sections start: 4, 5, or the places.
pub fn in_form(book: &[u16]) -> Result<Places, Refusal>
    ensures { looked result ≡ book_form_of book.now }
{
    if !is_book_size(book.len()) {
        return Err(Refusal::BookSize);
    }
    sections(book).ok_or(Refusal::NotInForm)
}
