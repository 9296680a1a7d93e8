// Teaching and withdrawing: the order's own book is listed, weighed against the book, and then added to it or taken from it. Nothing is
// written before the last refusal is ruled out. Assumes nothing beyond each inner function's `requires`.
#![tactic(auto)]

ghost use Rattle.std.specs.Prelude.{◌≡◌, ◌≤◌, length, replicate};
ghost use Rattle.figures.specs.Limits.{least_k, greatest_k};
ghost use Rattle.figures.specs.Answers.{answered};
ghost use Rattle.figures.specs.Refusals.{number_told};
ghost use Rattle.book.specs.Book.{lay};
ghost use Rattle.book.specs.Decoding.{places_of};
ghost use Rattle.book.specs.Holding.{Holds};
ghost use Rattle.book.specs.Opening.{outcome};
ghost use Rattle.book_listing.specs.Own.{own_words, own_of};
ghost use Rattle.book_teaching.specs.Calls.{teach_of, withdraw_of};

use book::{Places, Section};
use book_change::{Change, Lacking, change_book, lacking_parts, weigh_book, weigh_section};
use book_form::in_form;
use book_list::{OWN_WORDS, list_own};
use figures::{Answer, Depth, Refusal, limits};
use order_check::{Order, go_over, level_lines};

// Lists an order's own book, as one teaching of it has it, in `own`, whose words are zero. Answers where its sections start.
fn list_taught(order: Order, k: Depth, own: &mut [u16]) -> Places
    requires least_k_le_k { (least_k ≤ k.k) × (k.k ≤ greatest_k) }
    requires own_value { own.old ≡ replicate (length own.old) 0 }
    requires own_len { length own.old ≡ own_words }
    ensures came { result ≡ places_of (own_of k.k 1 order.entry.words.now) }
    ensures wrote { own.new ≡ lay own_words (own_of k.k 1 order.entry.words.now) }
{
    let mut levels = [0u8; limits::MOST_NODES];
    let lines = level_lines(order, &mut levels);
    list_own(&lines, k, 1, own)
}

// Teaches an order to a book in form, or refuses: 1, 2, 7 or 6.
fn teach_order(book: &mut [u16], places: Places, order: &[u16]) -> Result<(), Refusal>
    requires { Holds book.old places }
    ensures { outcome (answered (number_told result)) book.new ≡ teach_of book.old order.now }
{
    let mut spans = [0u16; limits::MOST_WORDS];
    let passed = go_over(order, &mut spans)?;
    if book[limits::LIVE_WORD] == limits::GREATEST_COUNT {
        return Err(Refusal::TooMany); // one teaching more would pass 65,535
    }
    let mut own = [0u16; OWN_WORDS];
    let owns = list_taught(passed, places.k, &mut own);
    let weighed = weigh_book(book, places, &own, owns);
    if weighed.overfull {
        return Err(Refusal::TooMany);
    }
    if book.len() - places.used < weighed.lacking {
        return Err(Refusal::NoRoom);
    }
    change_book(book, places, &own, owns, weighed.each, Change::Teach);
    Ok(())
}

// Withdraws an order from a book in form, or refuses: 1, 2, 8 or 9.
fn withdraw_order(book: &mut [u16], places: Places, order: &[u16]) -> Result<(), Refusal>
    requires { Holds book.old places }
    ensures { outcome (answered (number_told result)) book.new ≡ withdraw_of book.old order.now }
{
    let mut spans = [0u16; limits::MOST_WORDS];
    let passed = go_over(order, &mut spans)?;
    let mut own = [0u16; OWN_WORDS];
    let owns = list_taught(passed, places.k, &mut own);
    let taught = weigh_section(book, Section::Taught, places, &own, owns);
    if 0 < taught.lacking {
        return Err(Refusal::NotTaught);
    }
    if 0 < lacking_parts(book, places, &own, owns) {
        return Err(Refusal::NotAgreeing);
    }
    // What the book lacks plays no part in withdrawing.
    let unasked = Lacking {
        taught: 0,
        tops: 0,
        lows: 0,
        middles: 0,
    };
    change_book(book, places, &own, owns, unasked, Change::Withdraw);
    Ok(())
}

// Teaches an order to a book, or refuses: 4, 5, 1, 2, 7 or 6.
fn try_teach(book: &mut [u16], order: &[u16]) -> Result<(), Refusal>
    ensures { outcome (answered (number_told result)) book.new ≡ teach_of book.old order.now }
{
    let places = in_form(book)?;
    teach_order(book, places, order)
}

// Withdraws an order from a book, or refuses: 4, 5, 1, 2, 8 or 9.
fn try_withdraw(book: &mut [u16], order: &[u16]) -> Result<(), Refusal>
    ensures { outcome (answered (number_told result)) book.new ≡ withdraw_of book.old order.now }
{
    let places = in_form(book)?;
    withdraw_order(book, places, order)
}

// Teaches an order: 4, 5, 1, 2, 7, 6, or done, with the whole slice written.
pub fn teach(book: &mut [u16], order: &[u16]) -> Answer
    ensures { outcome result book.new ≡ teach_of book.old order.now }
{
    Answer::from(try_teach(book, order))
}

// Withdraws an order: 4, 5, 1, 2, 8, 9, or done, with the whole slice written.
pub fn withdraw(book: &mut [u16], order: &[u16]) -> Answer
    ensures { outcome result book.new ≡ withdraw_of book.old order.now }
{
    Answer::from(try_withdraw(book, order))
}
