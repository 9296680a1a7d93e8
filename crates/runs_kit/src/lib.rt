// What the program that runs cases is made of, and knows no call: what stands on a line, how what came of it is said, what is kept from line to
// line, and what a call did with a lent output. Assumes nothing.
#![tactic(auto)]

pub mod fault;
pub mod kept;
pub mod lent;
pub mod line;
pub mod mark;
pub mod say;
