// Orders: trees as 16-bit words in a lent slice. Whether words are an order, and the levels of its lines. Assumes nothing beyond each inner
// function's `requires`.
#![tactic(auto)]

ghost use Rattle.std.specs.Prelude.{◌≡◌, ◌/◌, ◌≤◌, length, IfOk};
ghost use Rattle.figures.specs.Limits.{most_words};
ghost use Rattle.figures.specs.Numbers.{done};
ghost use Rattle.order.specs.Reading.{cause_of};
ghost use Rattle.order.specs.Levels.{LinesLevelled};
ghost use Rattle.order.specs.Spans.{GoneOver, RowAt, hopped};
ghost use Rattle.order.specs.Answers.{check_of};
ghost use Rattle.figures.specs.Refusals.{number_told};

use figures::{Answer, Refusal, limits};
use order_spans::measure;

// An order that was gone over: its words, and the spans of its lines at the front of a scratch.
#[derive(Clone, Copy)]
pub struct Order<'a> {
    pub words: &'a [u16],
    pub spans: &'a [u16],
    pub ghost gone_over: { GoneOver words.now spans.now },
}

// The lines of an order that was gone over, with their levels at the front of a scratch.
#[derive(Clone, Copy)]
pub struct Lines<'a> {
    pub order: Order<'a>,
    pub levels: &'a [u8],
    pub ghost levelled: { LinesLevelled order.words.now levels.now },
}

// Whether the words are an order, or the first cause of 1 or 2; and where they are one, the spans of its lines, at the front of `spans`.
pub fn cause_into(order: &[u16], spans: &mut [u16]) -> Result<(), Refusal>
    requires { most_words ≤ length spans.old }
    ensures came { number_told result ≡ cause_of order.now }
    ensures listed { cause_of order.now ≡ done → GoneOver order.now spans.new }
    ensures kept { length spans.new ≡ length spans.old }
{
    let n = order.len();
    if n == 0 || n % 2 == 1 {
        return Err(Refusal::NoOrder);
    }
    if limits::MOST_WORDS < n {
        return Err(Refusal::TooLarge);
    }
    let depth = measure(order, spans).ok_or(Refusal::NoOrder)?;
    if limits::GREATEST_DEPTH < depth {
        return Err(Refusal::TooLarge);
    }
    Ok(())
}

// Whether the words are an order, or the first cause of 1 or 2.
pub fn cause(order: &[u16]) -> Result<(), Refusal>
    ensures { number_told result ≡ cause_of order.now }
{
    let mut spans = [0u16; limits::MOST_WORDS];
    cause_into(order, &mut spans)
}

// The order that words are, with the spans of its lines written to the scratch, or the first cause of 1 or 2.
pub fn go_over<'a>(words: &'a [u16], spans: &'a mut [u16]) -> Result<Order<'a>, Refusal>
    requires { most_words ≤ length spans.old }
    ensures came { number_told result ≡ cause_of words.now }
    ensures same { IfOk result (λ o. o.words ≡ words.entry) }
    ensures kept { IfOk result (λ o. length o.spans.now ≡ length spans.old) }
{
    cause_into(words, spans)?;
    Ok(Order { words, spans })
}

// Whether the words are an order: 0, or the first cause of 1 or 2, with line 0.
pub fn check(order: &[u16]) -> Answer
    ensures { result ≡ check_of order.now }
{
    Answer::from(cause(order))
}

// Writes a level for each of the trees of a row that begins on line `from`, each of which ends where the next begins.
fn level_row(spans: &[u16], from: usize, trees: u16, level: u8, levels: &mut [u8])
    requires { RowAt spans.now from trees (length levels.old) }
    ensures { levels.new ≡ hopped trees from level spans.now levels.old }
{
    let mut at = from;
    for _ in 0..trees {
        levels[at] = level;
        at = usize::from(spans[2 * at]);
    }
}

// The lines of an order, whose levels are written to the front of `levels`: that of each line's children is one more than its own.
pub fn level_lines<'a>(order: Order<'a>, levels: &'a mut [u8]) -> Lines<'a>
    requires { length order.words.now / 2 ≤ length levels.old }
    ensures same { result.order ≡ order.entry }
    ensures kept { length result.levels.now ≡ length levels.old }
{
    levels[0] = 0;
    for line in 0..order.words.len() / 2 {
        let children = order.words[2 * line + 1];
        let below = levels[line] + 1;
        level_row(order.spans, line + 1, children, below, levels);
    }
    Lines { order, levels }
}
