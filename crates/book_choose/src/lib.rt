// Choosing the image to build an order with: judge's verdict, and then whether the rules of a lent list that fit name one image. Nothing lent is
// changed. Assumes nothing beyond each inner function's `requires`.
#![tactic(auto)]

ghost use Rattle.std.specs.Prelude.{◌≡◌, ◌≤◌};
ghost use Rattle.figures.specs.Limits.{least_k, greatest_k};
ghost use Rattle.figures.specs.Numbers.{done};
ghost use Rattle.order.specs.Reading.{cause_of};
ghost use Rattle.book_choosing.specs.Choosing.{choose_of};
ghost use Rattle.book_choosing.specs.Walking.{told_of, chosen_for, chosen_told};

use book_choosing::{Chosen, Named};
use book_rules::{rule_at, with_rule};
use figures::{Depth, Refusal, limits, numbers};
use order_check::{Lines, go_over, level_lines};

// What is chosen by what the rules that fit name.
fn told(named: Named) -> Result<u16, Refusal>
    ensures { chosen_told result ≡ told_of named }
{
    match named {
        Named::Nothing => Err(Refusal::NoImage),
        Named::One(image) => Ok(image),
        Named::Two => Err(Refusal::TwoImages),
    }
}

// The image that is chosen for an order by a rule list, in one pass over the rules: all are looked at for their layout, so that a rule that is none
// is told even where two before it differ.
fn by_rules(lines: &Lines, k: Depth, rules: &[u16]) -> Result<u16, Refusal>
    requires { (least_k ≤ k.k) × (k.k ≤ greatest_k) }
    ensures { chosen_told result ≡ chosen_for k.k lines.now.order.words.now rules.now }
{
    let count = *rules.first().ok_or(Refusal::NoRules)?;
    if limits::MOST_RULES < count {
        return Err(Refusal::NoRules);
    }
    let mut stack = [0u16; limits::MOST_NODES];
    let d = k.of_middles();
    let mut at = 1;
    let mut named = Named::Nothing;
    for _ in 0..count {
        let end = rule_at(rules, at, k, &mut stack).ok_or(Refusal::NoRules)?;
        let image = rules[at];
        let tree = &rules[at + 2..end];
        named = with_rule(lines, d, named, image, tree);
        at = end;
    }
    if at != rules.len() {
        return Err(Refusal::NoRules);
    }
    told(named)
}

// The image that is chosen for an order that passes by a book of this k.
fn image_for(order: &[u16], k: Depth, rules: &[u16]) -> Result<u16, Refusal>
    requires order_value { cause_of order.now ≡ done }
    requires least_k_le_k { (least_k ≤ k.k) × (k.k ≤ greatest_k) }
    ensures { chosen_told result ≡ chosen_for k.k order.now rules.now }
{
    let mut spans = [0u16; limits::MOST_WORDS];
    let order = go_over(order, &mut spans).unwrap();
    let mut levels = [0u8; limits::MOST_NODES];
    let lines = level_lines(order, &mut levels);
    by_rules(&lines, k, rules)
}

// What is answered for an image, or for a refusal, which has line 0.
fn answered(image: Result<u16, Refusal>) -> Chosen
    ensures { result ≡ chosen_told image }
{
    match image {
        Ok(image) => Chosen {
            number: numbers::DONE,
            line: 0,
            image,
        },
        Err(refusal) => Chosen {
            number: refusal.number(),
            line: 0,
            image: 0,
        },
    }
}

// Chooses the image to build an order with: judge's refusals and verdicts with their lines, then 32, 30, 31, or 0 with the image.
pub fn choose(book: &[u16], order: &[u16], rules: &[u16]) -> Chosen
    ensures { result ≡ choose_of book.now order.now rules.now }
{
    let answer = book_judge::judge(book, order).answer;
    if answer.number != numbers::DONE {
        return Chosen {
            number: answer.number,
            line: answer.line,
            image: 0,
        };
    }
    let k = Depth::new(book[limits::K_WORD]).unwrap();
    answered(image_for(order, k, rules))
}
