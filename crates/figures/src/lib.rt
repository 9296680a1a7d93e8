// The figures and numbers of 01 by name, k, what can be a node, and the form of an answer: what the crates above count with. Assumes nothing.
#![tactic(auto)]

ghost use Rattle.std.specs.Prelude.{◌≡◌};
ghost use Rattle.figures.specs.Answers.{answered, number_of, refused_at, wrote};

mod depths;
pub mod limits;
pub mod nodes;
pub mod numbers;
mod refusals;

pub use depths::Depth;
pub use refusals::Refusal;

// An answer: its number by 01's table, and its line. The number is the word that is heard and that C has, not a `Refusal`: what is promised compares numbers
// (`judge_exactly`, `promises/proofs/Choosing.antt`), and some of them have a line.
#[derive(Clone, Copy)]
pub struct Answer {
    pub number: u16,
    pub line: usize,
}

// The answer of a call that writes words or bytes: how many it wrote besides.
#[derive(Clone, Copy)]
pub struct Written {
    pub number: u16,
    pub line: usize,
    pub count: usize,
}

// A number with line 0.
pub fn answered(number: u16) -> Answer
    ensures { result ≡ answered number }
{
    Answer { number, line: 0 }
}

// A number with line 0, and how many words or bytes were written.
pub fn wrote(number: u16, count: usize) -> Written
    ensures { result ≡ wrote number count }
{
    Written {
        number,
        line: 0,
        count,
    }
}

// A refusal by a number at a line: nothing was written.
pub fn refused(number: u16, line: usize) -> Written
    ensures { result ≡ refused_at number line }
{
    Written {
        number,
        line,
        count: 0,
    }
}

// 01's number for a k that was asked for: 0, or 3 for one outside 2 to 6.
pub fn asked_number(asked: Option<Depth>) -> u16
    ensures { result ≡ number_of asked }
{
    match asked {
        Some(_) => numbers::DONE,
        None => numbers::K_OUTSIDE,
    }
}
