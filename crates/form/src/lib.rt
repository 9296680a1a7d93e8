// Order form text: one line per node in preorder. `form_read_line` and `form_read` read it to words, and `form_write_line` and
// `form_write` write it. Assumes nothing.
#![tactic(auto)]

mod reading;

pub use reading::{Fault, Node};

// How many bytes follow a level on its line: a space, four digits and LF.
pub const CODE_SIZE: usize = 6;
