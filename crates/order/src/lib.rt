// Orders as trees: their words, how words are read as an order, subtrees, cuts and parts, and that these are document 000's; as definitions and
// laws, and no code. Here are the types that what goes over orders is answered by. Assumes nothing.
#![tactic(auto)]

use figures::Written;

// What a node comes to that has all its children: the line past its subtree, and how deep that is.
#[derive(Clone, Copy)]
pub struct Spanned {
    pub end: usize,
    pub depth: usize,
}

// What a node comes to that has taken its children from a row of trees: so many trees are there then, itself the first, and it is so deep.
#[derive(Clone, Copy)]
pub struct Popped {
    pub many: usize,
    pub depth: usize,
}

// The kind of part that a line stands for. (Not an `Option` of two: `part_into_of` says `Absent` of a line with a refusal's number too.)
#[derive(Clone, Copy)]
pub enum Kind {
    Absent,
    Low,
    Middle,
}

// The answer of `part_into`.
#[derive(Clone, Copy)]
pub struct PartWritten {
    pub kind: Kind,
    pub written: Written,
}
