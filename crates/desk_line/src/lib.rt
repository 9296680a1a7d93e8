// What the desk prints for a call: numbers in decimal, and the line of an answer. Assumes nothing beyond each inner function's `requires`.
#![tactic(auto)]

ghost use Rattle.std.specs.Prelude.{◌≡◌, ◌≤◌, length};
ghost use Rattle.words.specs.Base.{over};
ghost use Rattle.desk_line.specs.Replies.{last_digits, decimal, field, reply, reply_room};

use figures::Answer;
use form_write_line::digit_of;

// No number of 64 bits has more decimal digits.
pub const MOST_DIGITS: usize = 20;

// Room for any line: its letter, three numbers with a space before each, and LF.
pub const REPLY_ROOM: usize = 3 * MOST_DIGITS + 5;

// How many digits a number has in decimal without leading zeros.
fn digits_in(n: usize) -> usize
    ensures { result ≡ length (decimal n) }
{
    n.max(1).ilog10() as usize + 1
}

// Writes the last digits of a number, so many of them, to the front of `out`. By hand, since what `write!` wrote is known only where it answers
// Ok, that it does is said nowhere, and a line is written without fail.
fn put_digits(out: &mut [u8], n: usize, many: usize)
    requires { many ≤ length out.old }
    ensures { out.new ≡ over (last_digits many n) out.old }
{
    let mut rest = n;
    // By index: tried with `iter_mut().rev()`, whose contract says nothing of what the slice holds after it.
    for place in (0..many).rev() {
        out[place] = digit_of(rest);
        rest /= 10;
    }
}

// Writes a space and a number in decimal to the front of `out`, and answers how many bytes they take.
fn put_field(out: &mut [u8], n: usize) -> usize
    requires { length (field n) ≤ length out.old }
    ensures took { result ≡ length (field n) }
    ensures wrote { out.new ≡ over (field n) out.old }
{
    let many = digits_in(n);
    out[0] = b' ';
    put_digits(&mut out[1..], n, many);
    many + 1
}

// Writes the line of an answer to the front of `out`, and answers how many bytes it takes.
pub fn put_reply(out: &mut [u8], letter: u8, answer: Answer, used: u16) -> usize
    requires { reply_room ≤ length out.old }
    ensures took { result ≡ length (reply letter answer used) }
    ensures wrote { out.new ≡ over (reply letter answer used) out.old }
{
    out[0] = letter;
    let mut end = 1;
    for n in [usize::from(answer.number), answer.line, usize::from(used)] {
        end += put_field(&mut out[end..], n);
    }
    out[end] = b'\n';
    end + 1
}
