// Choosing an image as definitions and laws: what is answered for an order by a book and a rule list, and that it is exactly what 02 says by
// document 000; no code. Here are the type of what choosing answers, and those of what the functions of `book_rules` and `book_choose` tell each
// other. Assumes nothing.
#![tactic(auto)]

// What choosing answers: the number, the line that judging speaks of, and the image, which is 0 with every number but 0.
#[derive(Clone, Copy)]
pub struct Chosen {
    pub number: u16,
    pub line: usize,
    pub image: u16,
}

// What the rules that fit name, of those that were looked at: no image, one, or two that differ.
#[derive(Clone, Copy)]
pub enum Named {
    Nothing,
    One(u16),
    Two,
}
