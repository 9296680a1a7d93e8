// Two books joined: the first becomes the book of the live orders of both. Nothing is written before the last refusal is ruled out. Assumes
// nothing beyond the inner function's `requires`.
#![tactic(auto)]

ghost use Rattle.std.specs.Prelude.{◌≡◌};
ghost use Rattle.figures.specs.Answers.{answered};
ghost use Rattle.figures.specs.Refusals.{number_told};
ghost use Rattle.book.specs.Holding.{Holds};
ghost use Rattle.book.specs.Opening.{outcome};
ghost use Rattle.book_joining.specs.Joining.{join_of};

use book::Places;
use book_change::add_book;
use book_check::both_agree;
use book_form::in_form;
use figures::{Answer, Refusal, limits};

// Joins a book in form to a book in form, or refuses: 15, 9, 9, 7 or 6.
fn join_books(
    book: &mut [u16],
    places: Places,
    other: &[u16],
    others: Places,
) -> Result<(), Refusal>
    requires holds { Holds book.old places }
    requires holds_2 { Holds other.now others }
    ensures { outcome (answered (number_told result)) book.new ≡ join_of book.old other.now }
{
    if book[limits::K_WORD] != other[limits::K_WORD] {
        return Err(Refusal::OtherK);
    }
    if !both_agree(book, places, other, others) {
        return Err(Refusal::NotAgreeing);
    }
    let live = book[limits::LIVE_WORD];
    let more = other[limits::LIVE_WORD];
    if limits::GREATEST_COUNT - more < live {
        return Err(Refusal::TooMany); // of two books that agree with themselves no count is greater than their live teachings
    }
    if !add_book(book, places, other, others) {
        return Err(Refusal::NoRoom);
    }
    Ok(())
}

// Joins another book to the book, or refuses: 4, 5, 4, 5, 15, 9, 9, 7 or 6.
fn try_join(book: &mut [u16], other: &[u16]) -> Result<(), Refusal>
    ensures { outcome (answered (number_told result)) book.new ≡ join_of book.old other.now }
{
    let places = in_form(book)?;
    let others = in_form(other)?;
    join_books(book, places, other, others)
}

// Joins another book to the book: 4, 5, 4, 5, 15, 9, 9, 7, 6, or done, with the whole slice written. The other stays as it is.
pub fn join(book: &mut [u16], other: &[u16]) -> Answer
    ensures { outcome result book.new ≡ join_of book.old other.now }
{
    Answer::from(try_join(book, other))
}
