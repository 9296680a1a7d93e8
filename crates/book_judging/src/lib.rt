// Judging as definitions and laws: what is answered for an order by a book, and that it passes exactly by document 000; no code. Here are the
// type that a line's part is sought by, and that of what judging answers. Assumes nothing.
#![tactic(auto)]

use figures::Answer;
use section::Neighbours;

// The part that a line stands for: whether it is low, which words it has, of the order or of its cut, and its section's entries. (No word is there for
// the one kind alone, so that an enum would say each twice.)
#[derive(Clone, Copy)]
pub struct Sought {
    pub low: bool,
    pub from: usize,
    pub to: usize,
    pub at: usize,
    pub many: usize,
}

// What judging answers: the number and the line, and the neighbours in the book of the part that is doubted there.
#[derive(Clone, Copy)]
pub struct Judgement {
    pub answer: Answer,
    pub near: Neighbours,
}
