// Order form text, written: how many bytes it takes, by the order's depth or the levels of its lines, and then each line's bytes once. Assumes
// nothing beyond each function's `requires`.
#![tactic(auto)]

ghost use Rattle.std.specs.Prelude.{◌≡◌, true, ◌≤◌, length};
ghost use Rattle.words.specs.Base.{over};
ghost use Rattle.figures.specs.Answers.{wrote};
ghost use Rattle.figures.specs.Refusals.{number_told, count_told};
ghost use Rattle.order.specs.Answers.{writing};
ghost use Rattle.form.specs.Text.{spell};
ghost use Rattle.form.specs.Writing.{write_of};
ghost use Rattle.form.specs.Turns.{lines_in, ShortLines};

use figures::{Refusal, Written, limits};
use form::CODE_SIZE;
use form_write_line::{level_size, put_line, put_short_line};
use order_check::{Lines, Order, go_over, level_lines};

// Whether the spans of an order say that each of its lines has a level of one digit.
fn is_shallow(order: &Order) -> bool
    ensures { result ≡ true → ShortLines (lines_in order.now.words.now) }
{
    order.spans[1] < 10
}

// How many bytes the lines of an order take, by the level of each.
fn lines_size(lines: &Lines) -> usize
    ensures { result ≡ length (spell (lines_in lines.now.order.words.now)) }
{
    let count = lines.order.words.len() / 2;
    let sizes = lines.levels[..count]
        .iter()
        .map(|level| level_size(usize::from(*level)));
    count * CODE_SIZE + sizes.sum::<usize>()
}

// How many bytes the lines of an order take: seven each where no level has two digits.
fn text_size(lines: &Lines) -> usize
    ensures { result ≡ length (spell (lines_in lines.now.order.words.now)) }
{
    if is_shallow(&lines.order) {
        lines.order.words.len() / 2 * (1 + CODE_SIZE)
    } else {
        lines_size(lines)
    }
}

// Writes the lines of an order to the front of `out`, which has room for them.
fn put_lines(lines: &Lines, out: &mut [u8])
    requires { length (spell (lines_in lines.now.order.words.now)) ≤ length out.old }
    ensures { out.new ≡ over (spell (lines_in lines.now.order.words.now)) out.old }
{
    let Lines { order, levels } = lines;
    let mut at = 0;
    for (line, level) in levels[..order.words.len() / 2].iter().enumerate() {
        at += put_line(&mut out[at..], usize::from(*level), order.words[2 * line]);
    }
}

// Writes the lines of an order, whose levels have one digit each, to the front of `out`, which has room for them.
// By `put_lines` texts of 5 to 64 lines take 1.07 to 1.35 times as long.
fn put_short_lines(lines: &Lines, out: &mut [u8])
    requires short { ShortLines (lines_in lines.now.order.words.now) }
    requires room { length (spell (lines_in lines.now.order.words.now)) ≤ length out.old }
    ensures { out.new ≡ over (spell (lines_in lines.now.order.words.now)) out.old }
{
    let Lines { order, levels } = lines;
    let mut at = 0;
    for (line, level) in levels[..order.words.len() / 2].iter().enumerate() {
        put_short_line(&mut out[at..], *level, order.words[2 * line]);
        at += 1 + CODE_SIZE;
    }
}

// Writes the lines of an order to the front of `out`, which has room for them.
fn put_text(lines: &Lines, out: &mut [u8])
    requires { length (spell (lines_in lines.now.order.words.now)) ≤ length out.old }
    ensures { out.new ≡ over (spell (lines_in lines.now.order.words.now)) out.old }
{
    if is_shallow(&lines.order) {
        put_short_lines(lines, out);
    } else {
        put_lines(lines, out);
    }
}

// Writes the only text of an order to the front of `out`, and answers its number of bytes.
fn try_write(order: &[u16], out: &mut [u8]) -> Result<usize, Refusal>
    ensures { writing (wrote (number_told result) (count_told result)) out.new ≡ write_of order.now out.old }
{
    let mut spans = [0u16; limits::MOST_WORDS];
    let order = go_over(order, &mut spans)?;
    let mut levels = [0u8; limits::MOST_NODES];
    let lines = level_lines(order, &mut levels);
    let count = text_size(&lines);
    if out.len() < count {
        return Err(Refusal::ShortOutput);
    }
    put_text(&lines, out);
    Ok(count)
}

// Writes the only text of an order to the front of `out`, or nothing and the first cause.
pub fn write(order: &[u16], out: &mut [u8]) -> Written
    ensures { writing result out.new ≡ write_of order.now out.old }
{
    Written::from(try_write(order, out))
}
