// Order form text, read: its lines in one pass over the bytes, and the words of its nodes. Assumes nothing beyond each function's `requires`.
#![tactic(auto)]

ghost use Rattle.std.specs.Prelude.{◌≡◌, ◌≤◌, length, drop};
ghost use Rattle.figures.specs.Limits.{most_words};
ghost use Rattle.order.specs.Answers.{writing};
ghost use Rattle.form.specs.Reading.{form_of, read_of};
ghost use Rattle.form.specs.Turns.{follows, next_of, Parent, may_adopt, adopted, Parents, under_parent, counted_in, Got};

use figures::{Written, limits, numbers, refused, wrote};
use form::{Fault, Node};
use form_read_line::spelt_at;
use words::copy;

// The levels of an order's lines: 0 to its greatest depth.
const LEVELS: usize = limits::GREATEST_DEPTH + 1;

// Whether a line of this level may follow, where `greatest` is the greatest level allowed: 0 for line 1, otherwise the previous plus 1.
fn may_follow(greatest: usize, level: usize) -> bool
    ensures { result ≡ follows greatest level }
{
    if greatest == 0 {
        return level == 0;
    }
    if level < 1 {
        return false;
    }
    level <= greatest
}

// The line that starts at `at`, behind n lines, where `greatest` is the greatest level allowed: a node, or the first of its faults that
// can be told without the line's siblings.
fn next_line(text: &[u8], at: usize, n: usize, greatest: usize) -> Result<Node, Fault>
    requires { at ≤ length text.now }
    ensures { result ≡ next_of n greatest (drop at text.now) }
{
    if limits::MOST_NODES <= n {
        return Err(Fault::PastLast);
    }
    // The rules of the desk name this form: an enum for each line, and `let .. else`, which takes the node or hands the refusal on.
    let read = spelt_at(text, at);
    let Ok(node) = read else {
        return read;
    };
    if node.code == 0 {
        return Err(Fault::NoOption);
    }
    if !may_follow(greatest, node.level) {
        return Err(Fault::LevelNotAllowed);
    }
    if limits::GREATEST_DEPTH < node.level {
        return Err(Fault::TooDeep);
    }
    Ok(node)
}

// Counts a line of this level as one more child of its parent, which is the line that `latest` has for the level above. Answers whether
// the parent may have one more; if not, nothing is counted. Line 1 has no parent.
fn adopt(words: &mut [u16; limits::MOST_WORDS], latest: &[usize; LEVELS], level: usize) -> bool
    requires { Parent words.old latest.now level }
    ensures may { result ≡ may_adopt words.old latest.now level }
    ensures raised { words.new ≡ adopted words.old latest.now level }
{
    if level == 0 {
        return true;
    }
    let above = level - 1;
    let place = 2 * latest[above] + 1;
    let children = words[place];
    if limits::MOST_CHILDREN <= children {
        return false;
    }
    words[place] = children + 1;
    true
}

// The line that starts at `at`, behind n lines: a node, which is counted under its parent, or its first fault.
fn line_at(
    text: &[u8],
    at: usize,
    n: usize,
    greatest: usize,
    words: &mut [u16; limits::MOST_WORDS],
    latest: &[usize; LEVELS],
) -> Result<Node, Fault>
    requires { (at ≤ length text.now) × Parents (next_of n greatest (drop at text.now)) words.old latest.now }
    ensures answered { result ≡ under_parent words.old latest.now (next_of n greatest (drop at text.now)) }
    ensures counted { words.new ≡ counted_in words.old latest.now
        (next_of n greatest (drop at text.now)) }
{
    // As in `next_line`.
    let read = next_line(text, at, n, greatest);
    let Ok(node) = read else {
        return read;
    };
    if !adopt(words, latest, node.level) {
        return Err(Fault::NinthChild);
    }
    Ok(node)
}

// The lines of a text, in one pass: how many words they come to, which stand at the front of `words`, or the first line at fault. A node's
// number of children is raised as each child is met; `latest` has the last line of each level.
fn lines(text: &[u8], words: &mut [u16; limits::MOST_WORDS]) -> Written
    requires { length words.old ≡ most_words }
    ensures { Got (form_of text.now) result words.new }
{
    if text.len() == 0 {
        return refused(numbers::NO_FORM, 1);
    }
    let mut latest = [0usize; LEVELS];
    let mut at = 0;
    let mut n = 0;
    let mut greatest = 0;
    // A line tells where the next one begins: no range has these places.
    while at < text.len() {
        let line = n + 1;
        let Node { level, code, size } = match line_at(text, at, n, greatest, words, &latest) {
            Ok(node) => node,
            Err(fault) => return refused(fault.number(), line),
        };
        let here = 2 * n;
        words[here] = code;
        let children = here + 1;
        words[children] = 0;
        latest[level] = n;
        greatest = level + 1;
        n = line;
        at += size;
    }
    let count = 2 * n;
    wrote(numbers::DONE, count)
}

// Reads a form: its words to the front of `out`, or nothing and the first line at fault.
pub fn read(text: &[u8], out: &mut [u16]) -> Written
    ensures { writing result out.new ≡ read_of text.now out.old }
{
    let mut words = [0u16; limits::MOST_WORDS];
    let answer = lines(text, &mut words);
    if answer.number != numbers::DONE {
        return answer;
    }
    let count = answer.count;
    if out.len() < count {
        return wrote(numbers::SHORT_OUTPUT, 0);
    }
    copy(out, &words[0..count]);
    answer
}
