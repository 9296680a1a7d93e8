// How a line of a form is spelt: its level, a space, four digits and LF. Assumes nothing beyond each function's `requires`.
#![tactic(auto)]

ghost use Rattle.std.specs.Prelude.{true, ◌≡◌, ◌≤◌, ◌<◌, length, drop};
ghost use Rattle.form.specs.Reading.{is_digit, figure, value, is_code, code_behind, spelt_of};

use form::{CODE_SIZE, Fault, Node};

// Whether a byte is a digit.
fn is_digit(b: u8) -> bool
    ensures { result ≡ is_digit b }
{
    b.is_ascii_digit()
}

// The number that a digit stands for.
fn figure_of(b: u8) -> u16
    requires { is_digit b ≡ true }
    ensures { (result ≡ figure b) × (result < 10) }
{
    u16::from(b - b'0')
}

// Whether six bytes are a space, four digits and LF.
fn is_code(space: u8, a: u8, b: u8, c: u8, d: u8, end: u8) -> bool
    ensures { result ≡ is_code space a b c d end }
{
    if space != b' ' {
        return false;
    }
    if !is_digit(a) {
        return false;
    }
    if !is_digit(b) {
        return false;
    }
    if !is_digit(c) {
        return false;
    }
    if !is_digit(d) {
        return false;
    }
    end == b'\n'
}

// The number that four digits stand for.
fn value_of(a: u8, b: u8, c: u8, d: u8) -> u16
    requires { (is_digit a ≡ true) × (is_digit b ≡ true) × (is_digit c ≡ true) × (is_digit d ≡ true) }
    ensures { result ≡ value a b c d }
{
    figure_of(a) * 1000 + figure_of(b) * 100 + figure_of(c) * 10 + figure_of(d)
}

// The line of a level of `w` bytes, by the bytes behind the level.
fn code_behind(level: u16, w: usize, bytes: &[u8]) -> Result<Node, Fault>
    requires { w ≤ 2 }
    ensures { result ≡ code_behind level w bytes.now }
{
    let &[space, a, b, c, d, end, ..] = bytes else {
        return Err(Fault::Misspelt);
    };
    if !is_code(space, a, b, c, d, end) {
        return Err(Fault::Misspelt);
    }
    Ok(Node {
        level: usize::from(level),
        code: value_of(a, b, c, d),
        size: w + CODE_SIZE,
    })
}

// The line that starts at `at`, as it is spelt.
pub fn spelt_at(text: &[u8], at: usize) -> Result<Node, Fault>
    requires { at ≤ length text.now }
    ensures { result ≡ spelt_of (drop at text.now) }
{
    let bytes = &text[at..];
    let &[x, y, ..] = bytes else {
        return Err(Fault::Misspelt);
    };
    if !is_digit(x) {
        return Err(Fault::Misspelt);
    }
    let first = figure_of(x);
    if !is_digit(y) {
        return code_behind(first, 1, &bytes[1..]);
    }
    if x == b'0' {
        return Err(Fault::Misspelt);
    }
    code_behind(first * 10 + figure_of(y), 2, &bytes[2..])
}
