// The rules of a list, one by one: whether one stands at a word, whether it fits an order, and what is named then. Nothing lent is changed but a
// scratch. Assumes nothing beyond each function's `requires`.
#![tactic(auto)]

ghost use Rattle.std.specs.Prelude.{◌≡◌, ◌≤◌, ◌<◌, length};
ghost use Rattle.words.specs.Base.{when◌then◌else◌};
ghost use Rattle.figures.specs.Limits.{most_nodes, greatest_k};
ghost use Rattle.book_choosing.specs.Walking.{rule_at_of, cut_from, also_of, would_change};

use book_choosing::Named;
use figures::{Depth, limits};
use order_check::Lines;

// What stands at a word of a rule list: a rule, if all its words are there, its image is one, and its tree is an order of a depth of at most
// k-1, by a lent stack of depths.
pub fn rule_at(rules: &[u16], at: usize, k: Depth, stack: &mut [u16]) -> Option<usize>
    requires { (at ≤ length rules.now) × (k.k ≤ greatest_k) × (most_nodes ≤ length stack.old) }
    ensures came { result ≡ rule_at_of k.k rules.now at }
    ensures kept { length stack.new ≡ length stack.old }
{
    let [image, nodes, behind @ ..] = &rules[at..] else {
        return None;
    };
    let size = 2 * usize::from(*nodes);
    let tree = behind.get(..size)?;
    if *image < limits::LEAST_IMAGE {
        return None;
    }
    if !order_fit::fits(tree, 0, k.of_middles(), stack) {
        return None;
    }
    Some(at + 2 + size)
}

// Whether one of the order's lines has a subtree whose cut at d has the words of a tree: most lines differ from it in their code.
fn has_cut(lines: &Lines, d: usize, tree: &[u16]) -> bool
    requires { 0 < length tree.now }
    ensures { result ≡ cut_from lines.now.order.words.now d tree.now 0 }
{
    let code = tree[0];
    let words = lines.order.words;
    (0..words.len() / 2).any(|line| words[line * 2] == code
        && order_cuts::is_cut(lines, line, d, tree))
}

// What is named once a rule with this image fits too.
fn also(named: Named, image: u16) -> Named
    ensures { result ≡ also_of named image }
{
    match named {
        Named::Nothing => Named::One(image),
        Named::One(first) if image == first => named,
        Named::One(_) => Named::Two,
        Named::Two => Named::Two,
    }
}

// Whether a rule with this image would change what is named: not where two differ already, and not where it is named already.
fn would_change(named: Named, image: u16) -> bool
    ensures { result ≡ would_change named image }
{
    match named {
        Named::Nothing => true,
        Named::One(first) => image != first,
        Named::Two => false,
    }
}

// What is named once a rule was looked at too. Whether it fits is found out only where that matters.
pub fn with_rule(lines: &Lines, d: usize, named: Named, image: u16, tree: &[u16]) -> Named
    requires { 0 < length tree.now }
    ensures { result ≡ (when cut_from lines.now.order.words.now d tree.now 0 then also_of named image else named) }
{
    if would_change(named, image) && has_cut(lines, d, tree) {
        also(named, image)
    } else {
        named
    }
}
