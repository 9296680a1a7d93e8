// What is handed in at the desk: its first line, its letter lines, and the forms between them. Knows nothing of books. Assumes nothing beyond each
// inner function's `requires`.
#![tactic(auto)]

ghost use Rattle.std.specs.Prelude.{true, ◌≡◌, ◌+◌, ◌≤◌, length, drop};
ghost use Rattle.desk_input.specs.Sheets.{letter_byte, letter_of, opening_of};
ghost use Rattle.desk_input.specs.Places.{letter_at, size_to, depth_on};

use figures::{Answer, Depth, answered, limits, numbers};

// How many bytes line 1 takes: K, a space, a digit and LF.
pub const FIRST_LINE: usize = 4;

// How many bytes a letter line takes: its letter and LF.
pub const LETTER_LINE: usize = 2;

// The letter of the opening.
pub const OPENING_LETTER: u8 = b'K';

// What a letter asks for.
#[derive(Clone, Copy)]
pub enum Letter {
    Teach,
    Withdraw,
    Judge,
}

impl Letter {
    // The byte that a letter is written with.
    pub fn byte(self) -> u8
        ensures { result ≡ letter_byte self }
    {
        match self {
            Letter::Teach => b'T',
            Letter::Withdraw => b'W',
            Letter::Judge => b'J',
        }
    }
}

// What a byte asks for, if it is a letter.
fn letter_of(b: u8) -> Option<Letter>
    ensures { result ≡ letter_of b }
{
    match b {
        b'T' => Some(Letter::Teach),
        b'W' => Some(Letter::Withdraw),
        b'J' => Some(Letter::Judge),
        _ => None,
    }
}

// What the line at `at` asks for, if it is a letter line; it is read as if a line started there.
pub fn letter_at(text: &[u8], at: usize) -> Option<Letter>
    requires { at ≤ length text.now }
    ensures { result ≡ letter_at (drop at text.now) }
{
    match &text[at..] {
        [letter, b'\n', ..] => letter_of(*letter),
        _ => None,
    }
}

// Where the form that starts at `from` ends: at the next letter line, or at the end of the text. A line starts at `from`.
pub fn form_end(text: &[u8], from: usize) -> usize
    requires { from ≤ length text.now }
    ensures { result ≡ from + size_to true (drop from text.now) }
{
    let mut starts = true;
    for at in from..text.len() {
        if starts && letter_at(text, at).is_some() {
            return at;
        }
        starts = text[at] == b'\n';
    }
    text.len()
}

// The k that line 1 asks for, if the line is spelt so and k is 2 to 6.
fn depth_on(input: &[u8]) -> Option<Depth>
    ensures { result ≡ depth_on input.now }
{
    match input {
        [OPENING_LETTER, b' ', digit, b'\n', ..] if digit.is_ascii_digit() => {
            Depth::new(u16::from(*digit - b'0'))
        }
        _ => None,
    }
}

// The first of the three faults of an input, or the k that its first line opens a book of.
pub fn opening(input: &[u8]) -> Result<u16, Answer>
    ensures { result ≡ opening_of input.now }
{
    if limits::MOST_INPUT < input.len() {
        return Err(answered(numbers::TOO_LARGE));
    }
    let depth = depth_on(input).ok_or(answered(numbers::K_OUTSIDE))?;
    if input.len() != FIRST_LINE && letter_at(input, FIRST_LINE).is_none() {
        return Err(Answer {
            number: numbers::NO_FORM,
            line: 2,
        });
    }
    Ok(depth.value())
}
