// What comes of a case of books:
//   form W W ..       the words are looked at as a book
//   open ROOM K       a book of that k is opened in a slice of so many words, each 9 before, and is the kept book from now on
//   lay W W ..        the kept book is these words from now on
//   teach W W ..      the order of these words is taught to the kept book
//   withdraw W W ..   the order of these words is withdrawn from it
//   ask W W ..        the order of these words is judged by it; this also says what the book expected
//   choose N W W ..   the image for an order, the first N words behind N, is chosen by it and by the rule list that the others are
//   agrees            it is checked to agree with itself
//   join              the other book, with which it changes places by `swap`, is joined to it
//   show              says every word of it
// All calls but that of `form` are made through the functions for C (`ofb`). Each call on the kept book says its answer, word 1 of the book and a
// mark of all the words of its slice; a joining also says whether the words of the other book are the same as before.
use ofb::OfbAnswer;
use runs_kit::fault::Fault;
use runs_kit::kept::{self, Kept};
use runs_kit::say::Slice;
use runs_kit::{mark, say};
use std::fmt;

// Runs a case of `form`: says the k of the book, the places where its sections R, L and P start, and its words used, or why it is none.
pub fn form(rt: &impl Print, given: &[u16]) -> Result<(), Fault> {
    match book_form::in_form(given) {
        Err(refusal) => print!(rt; "refused {}", refusal.number())?,
        Ok(places) => print!(rt;
            "k {}, R at {}, L at {}, P at {}, {} words used",
            places.k.value(),
            places.tops,
            places.lows,
            places.middles,
            places.used
        )?,
    }
    Ok(())
}

// How a book stands: its word 1, which has its words used, or 0 where there is no such word, and the mark of all its words.
#[derive(Clone, Copy)]
struct State<'a>(&'a [u16]);

impl fmt::Display for State<'_> {
    fn fmt<W: fmt::Write>(&self, f: &mut fmt::Formatter<W>) -> fmt::Result {
        let used = self.0.get(1).copied().unwrap_or(0);
        write!(f, "{used} used, mark {}", mark::of(self.0))
    }
}

// Runs a case of `open`: says the answer and every word of the slice.
pub fn open(rt: &(impl Print + AllocGlobal), given: &[u16], kept: &mut Kept) -> Result<(), Fault> {
    let &[room, k] = given else {
        return Err(Fault::NotUnderstood);
    };
    let mut book = kept::slice(rt.alloc(), room)?;
    let answer = ofb::ofb_open(&mut book, k);
    print!(rt; "{}, line {}:{}", answer.number, answer.line, Slice(&book))?;
    kept.book = book;
    Ok(())
}

// Runs a case of `lay`: says how many words there are, and how the book stands.
pub fn lay(rt: &(impl Print + AllocGlobal), given: &[u16], kept: &mut Kept) -> Result<(), Fault> {
    kept.keep_book(rt.alloc(), given)?;
    print!(rt; "{} words, {}", given.len(), State(given))?;
    Ok(())
}

// Runs a case of `show`.
pub fn show(rt: &impl Print, given: &[u16], kept: &Kept) -> Result<(), Fault> {
    if !given.is_empty() {
        return Err(Fault::NotUnderstood);
    }
    print!(rt; "words:{}", Slice(&kept.book))?;
    Ok(())
}

// Says what a call on a book answered, and how the book stands then.
fn called(rt: &impl Print, answer: OfbAnswer, book: &[u16]) -> Result<(), Fault> {
    print!(rt; "{}, line {}, {}", answer.number, answer.line, State(book))?;
    Ok(())
}

// Runs a case of `teach`.
pub fn teach(rt: &impl Print, order: &[u16], kept: &mut Kept) -> Result<(), Fault> {
    let answer = ofb::ofb_teach(&mut kept.book, order);
    called(rt, answer, &kept.book)
}

// Runs a case of `withdraw`.
pub fn withdraw(rt: &impl Print, order: &[u16], kept: &mut Kept) -> Result<(), Fault> {
    let answer = ofb::ofb_withdraw(&mut kept.book, order);
    called(rt, answer, &kept.book)
}

// Runs a case of `ask`: says the answer, what the book expected, and how the book stands.
pub fn ask(rt: &impl Print, order: &[u16], kept: &Kept) -> Result<(), Fault> {
    let judged = ofb::ofb_judge(&kept.book, order);
    let there = if judged.there == 0 {
        "not there"
    } else {
        "there"
    };
    print!(rt;
        "{}, line {}, below {}, {there}, places {} and {}, {}",
        judged.number,
        judged.line,
        judged.below,
        judged.place_below,
        judged.place_above,
        State(&kept.book)
    )?;
    Ok(())
}

// Runs a case of `choose`: says the answer, the image, and how the book stands.
pub fn choose(rt: &impl Print, given: &[u16], kept: &Kept) -> Result<(), Fault> {
    let [count, words @ ..] = given else {
        return Err(Fault::NotUnderstood);
    };
    let (order, rules) = words
        .split_at_checked(usize::from(*count))
        .ok_or(Fault::NotUnderstood)?;
    let chosen = ofb::ofb_choose(&kept.book, order, rules);
    print!(rt;
        "{}, line {}, image {}, {}",
        chosen.number,
        chosen.line,
        chosen.image,
        State(&kept.book)
    )?;
    Ok(())
}

// Runs a case of `agrees`.
pub fn agrees(rt: &impl Print, given: &[u16], kept: &Kept) -> Result<(), Fault> {
    if !given.is_empty() {
        return Err(Fault::NotUnderstood);
    }
    called(rt, ofb::ofb_check(&kept.book), &kept.book)
}

// Runs a case of `join`, and says whether the words of the other book are the same as before, by their mark.
pub fn join(rt: &impl Print, given: &[u16], kept: &mut Kept) -> Result<(), Fault> {
    if !given.is_empty() {
        return Err(Fault::NotUnderstood);
    }
    let before = mark::of(&kept.other);
    let answer = ofb::ofb_join(&mut kept.book, &kept.other);
    called(rt, answer, &kept.book)?;
    let after = mark::of(&kept.other);
    print!(rt; ", the other {}", say::came_back(after == before))?;
    Ok(())
}
