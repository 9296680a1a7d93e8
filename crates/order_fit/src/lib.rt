// How deep the tree is that words are, where nothing else is asked of its lines: by a stack of depths in a lent scratch, from the last node to
// the first. Assumes nothing beyond each function's `requires`.
#![tactic(auto)]

ghost use Rattle.std.specs.Prelude.{◌≡◌, ◌*◌, ◌/◌, ◌≤◌, ◌<◌, length};
ghost use Rattle.figures.specs.Limits.{most_nodes, most_words, greatest_depth};
ghost use Rattle.order.specs.Trees.{Forest};
ghost use Rattle.order.specs.Reading.{tree_of};
ghost use Rattle.order.specs.Fits.{fits_of};
ghost use Rattle.order.specs.Spans.{measured_of, StackIs, popped_by};

use figures::limits;
use figures::nodes::node_ok;
use order::Popped;
use order_spans::deeper;

// Takes a node's children from a row of trees: so many are there, and the first is so deep, the first `run` are leaves, and the depths of the
// trees behind the first are the words of the stack from word 1 to before word `row.many`, that of the last tree first. Where all children are
// among the leaves nothing is read.
fn pop(stack: &[u16], row: Popped, run: u16, children: u16) -> Option<Popped>
    requires { (row.many ≤ length stack.now) × (run ≤ row.many) × (0 < children) × (row.depth ≤ most_words) }
    ensures { (f : Forest) → StackIs row.many row.depth run stack.now f → result ≡ popped_by children f }
{
    let many = row.many.checked_sub(usize::from(children))? + 1;
    if children <= run {
        return Some(Popped { many, depth: 1 });
    }
    let mut depth = row.depth + 1;
    for h in stack[many..row.many].iter().rev() {
        depth = deeper(depth, *h);
    }
    Some(Popped { many, depth })
}

// How deep the tree is that words are, from the last node to the first, by the depths of the trees behind: `row` is how many they are and how
// deep the first is, and the depths of the others stand on the stack. `run` is how many leaves they begin with.
pub fn deep(order: &[u16], stack: &mut [u16]) -> Option<usize>
    requires { (2 * (length order.now / 2) ≡ length order.now) × (length order.now ≤ most_words)
        × (length order.now / 2 ≤ length stack.old) }
    ensures came { result ≡ measured_of (tree_of order.now) }
    ensures kept { length stack.new ≡ length stack.old }
{
    let mut row = Popped { many: 0, depth: 0 };
    let mut run = 0;
    for line in (0..order.len() / 2).rev() {
        let children = order[2 * line + 1];
        if !node_ok(order[2 * line], children) {
            return None;
        }
        if children == 0 {
            stack[row.many] = row.depth as u16;
            row = Popped {
                many: row.many + 1,
                depth: 0,
            };
            run += 1;
        } else {
            row = pop(stack, row, run, children)?;
            run = 0;
        }
    }
    (row.many == 1).then_some(row.depth)
}

// Whether the words are an order within limits, of a depth from `least` to `greatest`.
pub fn fits(order: &[u16], least: usize, greatest: usize, stack: &mut [u16]) -> bool
    requires { (2 * (length order.now / 2) ≡ length order.now) × (greatest ≤ greatest_depth) × (most_nodes ≤ length stack.old) }
    ensures came { result ≡ fits_of least greatest order.now }
    ensures kept { length stack.new ≡ length stack.old }
{
    order.len() <= limits::MOST_WORDS
        && deep(order, stack).is_some_and(|depth| (least..=greatest).contains(&depth))
}
