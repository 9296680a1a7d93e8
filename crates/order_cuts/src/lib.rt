// The subtree of a line of an order, as that part of its words, and its cut, written to a lent slice. Assumes nothing beyond the `requires` of an
// inner function.
#![tactic(auto)]

ghost use Rattle.std.specs.Prelude.{◌≡◌, ◌+◌, ◌*◌, ◌/◌, ◌≤◌, ◌<◌, length, get_or, leb};
ghost use Rattle.words.specs.Base.{over, when◌then◌else◌, same_words};
ghost use Rattle.figures.specs.Answers.{wrote};
ghost use Rattle.figures.specs.Refusals.{number_told, count_told};
ghost use Rattle.figures.specs.Limits.{most_words};
ghost use Rattle.figures.specs.Numbers.{done};
ghost use Rattle.order.specs.Reading.{cause_of};
ghost use Rattle.order.specs.Spans.{GoneOver};
ghost use Rattle.order.specs.Standing.{cut_of, place_told, place_found, place_of};
ghost use Rattle.order.specs.Answers.{subtree_of, piece_at, writing, write, cut_into_of};

use figures::{Refusal, Written, limits};
use order_check::{Lines, Order, cause_into, go_over, level_lines};

// The word at which a line of an order stands, the lines counted from 1, if the order has it.
pub fn find_in(order: &Order, line: usize) -> Option<usize>
    ensures { place_told result ≡ place_of order.now.words.now line }
{
    if line == 0 || order.words.len() / 2 < line {
        return None;
    }
    let at = (line - 1) * 2;
    Some(at)
}

// The same of words, if they are an order, or the first cause of 1 or 2; and the spans of the order's lines, at the front of `spans`.
pub fn find_line(order: &[u16], line: usize, spans: &mut [u16]) -> Result<Option<usize>, Refusal>
    requires { most_words ≤ length spans.old }
    ensures came { place_found result ≡ place_of order.now line }
    ensures listed { cause_of order.now ≡ done → GoneOver order.now spans.new }
    ensures kept { length spans.new ≡ length spans.old }
{
    cause_into(order, spans)?;
    let passed = Order {
        words: order,
        spans,
    };
    Ok(find_in(&passed, line))
}

// The line past the subtree of a line, both counted from 0, by the spans of an order's lines.
pub fn line_end(spans: &[u16], line: usize) -> usize
    requires { line * 2 < length spans.now }
    ensures { result ≡ get_or spans.now (line * 2) 0 }
{
    usize::from(spans[line * 2])
}

// The subtree of a line, counted from 1, as that part of the order; an empty part for an order with a cause of 1 or 2 and for a line
// that the order lacks.
pub fn subtree(order: &[u16], line: usize) -> &[u16]
    ensures { (result.ref_ptr, result.now) ≡ piece_at order.entry.ref_ptr (subtree_of order.now line) }
{
    let mut spans = [0u16; limits::MOST_WORDS];
    let Ok(found) = find_line(order, line, &mut spans) else {
        return &order[0..0];
    };
    let Some(at) = found else {
        return &order[0..0];
    };
    let end = line_end(&spans, at / 2) * 2;
    &order[at..end]
}

// What a node at a depth keeps of its number of children in a cut at d: none at depth d.
fn kept_children(below: usize, d: usize, children: u16) -> u16
    ensures { result ≡ (when leb d below then 0 else children) }
{
    if d <= below { 0 } else { children }
}

// The line that is written next in a cut at d behind a line at a depth: of what is below a line at depth d none is written.
fn next_line(order: &Order, line: usize, below: usize, d: usize) -> usize
    requires { line < length order.now.words.now / 2 }
    ensures { result ≡ (when leb d below then get_or order.now.spans.now (line * 2) 0 else line + 1) }
{
    if d <= below {
        return line_end(order.spans, line);
    }
    line + 1
}

// Writes the cut at d of the subtree of a line, the lines counted from 0, to the front of `out`, which has room for it. Answers its number of words.
pub fn put_cut(lines: &Lines, line: usize, d: usize, out: &mut [u16]) -> usize
    requires line_in_bounds { line < length lines.now.order.words.now / 2 }
    requires d_in_bounds { length (cut_of lines.now.order.words.now (line * 2) d) ≤ length out.old }
    ensures came { result ≡ length (cut_of lines.now.order.words.now (line * 2) d) }
    ensures wrote { out.new ≡ over (cut_of lines.now.order.words.now (line * 2) d) out.old }
{
    let Lines { order, levels } = lines;
    let own = levels[line];
    let end = line_end(order.spans, line);
    let mut at = line;
    let mut count: usize = 0;
    // A turn finds the next turn's line: no range has these.
    while at < end {
        let below = usize::from(levels[at] - own);
        out[count] = order.words[at * 2];
        out[count + 1] = kept_children(below, d, order.words[at * 2 + 1]);
        at = next_line(order, at, below, d);
        count += 2;
    }
    count
}

// Whether the cut at d of the subtree of a line, the lines counted from 0, has the words of a tree. Left at the first word that differs; nothing
// is written.
pub fn is_cut(lines: &Lines, line: usize, d: usize, tree: &[u16]) -> bool
    requires { line < length lines.now.order.words.now / 2 }
    ensures { result ≡ same_words (cut_of lines.now.order.words.now (line * 2) d) tree.now }
{
    let Lines { order, levels } = lines;
    let own = levels[line];
    let end = line_end(order.spans, line);
    let mut at = line;
    let mut rest = tree;
    // A turn finds the next turn's line, as above.
    while at < end {
        let &[code, children, ref behind @ ..] = rest else {
            return false;
        };
        let under = usize::from(levels[at] - own);
        if order.words[at * 2] != code
            || kept_children(under, d, order.words[at * 2 + 1]) != children
        {
            return false;
        }
        at = next_line(order, at, under, d);
        rest = behind;
    }
    rest.is_empty()
}

// Writes the cut at d of the subtree of a line, the lines counted from 0, to the front of `out`, or refuses with 11 where it has no room. It is
// written to a scratch first, which shows how long it is. Answers its number of words.
pub fn cut_line(order: Order, line: usize, d: usize, out: &mut [u16]) -> Result<usize, Refusal>
    requires { line < length order.words.now / 2 }
    ensures { writing (wrote (number_told result) (count_told result)) out.new ≡ write (cut_of order.entry.words.now (line * 2) d) out.old }
{
    let mut levels = [0u8; limits::MOST_NODES];
    let lines = level_lines(order, &mut levels);
    let mut cut = [0u16; limits::MOST_WORDS];
    let count = put_cut(&lines, line, d, &mut cut);
    if out.len() < count {
        return Err(Refusal::ShortOutput);
    }
    out[..count].copy_from_slice(&cut[..count]);
    Ok(count)
}

// Writes the cut at d of the subtree of a line to the front of `out`, and answers its number of words: none for a line that the order lacks.
fn try_cut(order: &[u16], line: usize, d: usize, out: &mut [u16]) -> Result<usize, Refusal>
    ensures { writing (wrote (number_told result) (count_told result)) out.new ≡ cut_into_of order.now line d out.old }
{
    let mut spans = [0u16; limits::MOST_WORDS];
    let passed = go_over(order, &mut spans)?;
    match find_in(&passed, line) {
        Some(at) => cut_line(passed, at / 2, d, out),
        None => Ok(0),
    }
}

// Writes the cut at d of the subtree of a line to the front of `out`; nothing for a line that the order lacks.
pub fn cut_into(order: &[u16], line: usize, d: usize, out: &mut [u16]) -> Written
    ensures { writing result out.new ≡ cut_into_of order.now line d out.old }
{
    Written::from(try_cut(order, line, d, out))
}
