// Judging: whether an order's top and parts are all in the book, and otherwise the line to fix: the first one whose part is not, while all that
// stands strictly below it is; and where that part would stand in the book. Nothing lent is changed. Assumes nothing beyond each inner function's
// `requires`.
#![tactic(auto)]

ghost use Rattle.std.specs.Prelude.{◌≡◌, MatchResult};
ghost use Rattle.figures.specs.Refusals.{refusal_number};
ghost use Rattle.book.specs.Decoding.{book_in};
ghost use Rattle.book.specs.Holding.{Holds};
ghost use Rattle.book_judging.specs.Expecting.{judgement_of};
ghost use Rattle.book_judging.specs.Seeking.{top_near, line_to_fix, JudgedAt, plainly_of};

use book::Places;
use book_form::in_form;
use book_judging::Judgement;
use book_seek::{first_unknown, plainly};
use figures::{Answer, Refusal, limits, numbers};
use order_check::{Lines, go_over, level_lines};
use section::{Neighbours, around, find};

// The neighbours of the order's top in the book.
fn top_near(book: &[u16], places: Places, lines: &Lines) -> Neighbours
    requires { Holds book.now places }
    ensures { result ≡ top_near (book_in book.now) lines.now.order.words.now }
{
    let mut cut = [0u16; limits::MOST_WORDS];
    let count = order_cuts::put_cut(lines, 0, places.k.of_tops(), &mut cut);
    let many = usize::from(book[limits::TOPS_WORD]);
    around(find(book, places.tops, many, &cut[..count]))
}

// The judgement at the line to fix; 0 alone where every part is known. It is the first unknown line if all strictly below it are known, and
// otherwise the one to fix among those: each line is looked up at most once.
fn line_to_fix(book: &[u16], places: Places, lines: &Lines) -> Judgement
    requires { Holds book.now places }
    ensures { JudgedAt (book_in book.now) lines.now.order.words.now
        (line_to_fix (book_in book.now) lines.now.order.words.now) result }
{
    let mut found = plainly(numbers::DONE);
    let mut from: usize = 0;
    let mut to = lines.order.words.len() / 2;
    // A turn finds the next turn's lines: no range has these.
    loop {
        let judged = first_unknown(book, places, lines, from, to);
        let line = judged.answer.line;
        if line == 0 {
            return found;
        }
        found = judged;
        from = line;
        to = order_cuts::line_end(lines.order.spans, line - 1);
    }
}

// Judges an order within limits by a book in form.
fn judge_order(book: &[u16], places: Places, lines: &Lines) -> Judgement
    requires { Holds book.now places }
    ensures { result ≡ judgement_of book.now lines.now.order.words.now }
{
    let judged = line_to_fix(book, places, lines);
    if judged.answer.line != 0 {
        return judged;
    }
    let near = top_near(book, places, lines);
    if near.there {
        return plainly(numbers::DONE);
    }
    let answer = Answer {
        number: numbers::TOP_UNKNOWN,
        line: 1,
    };
    Judgement { answer, near }
}

// Judges an order, or refuses with 4, 5, 1 or 2.
fn try_judge(book: &[u16], order: &[u16]) -> Result<Judgement, Refusal>
    ensures { MatchResult result (λ j. j ≡ judgement_of book.now order.now) (λ r. plainly_of (refusal_number r) ≡ judgement_of book.now order.now) }
{
    let places = in_form(book)?;
    let mut spans = [0u16; limits::MOST_WORDS];
    let order = go_over(order, &mut spans)?;
    let mut levels = [0u8; limits::MOST_NODES];
    let lines = level_lines(order, &mut levels);
    Ok(judge_order(book, places, &lines))
}

// Judges an order: 4, 5, 1, 2, or 0 if its top, its low parts and its middle parts are all in the book, and otherwise 20, 21 or 22 with a line
// and the neighbours in the book of what is unknown there.
pub fn judge(book: &[u16], order: &[u16]) -> Judgement
    ensures { result ≡ judgement_of book.now order.now }
{
    try_judge(book, order).unwrap_or_else(|refusal| plainly(refusal.number()))
}
