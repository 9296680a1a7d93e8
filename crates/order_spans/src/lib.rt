// The spans of an order's lines: where the subtree of each ends and how deep it is, found from the last line to the first, in a lent scratch.
// Assumes nothing beyond each function's `requires`.
#![tactic(auto)]

ghost use Rattle.std.specs.Prelude.{◌≡◌, suc, ◌+◌, ◌*◌, ◌-◌, ◌^◌, ◌≤◌, ◌<◌, max, length, take, drop, set};
ghost use Rattle.order.specs.Trees.{Tree, subtrees};
ghost use Rattle.order.specs.Reading.{found, tree_of};
ghost use Rattle.order.specs.Spans.{spans_from, row_of, measured_of, Measurable, SpansAre, FirstSpan, spanned_by};

use figures::nodes::node_ok;
use order::Spanned;

// The depth of a node that has a child of depth h besides.
pub fn deeper(depth: usize, h: u16) -> usize
    ensures { result ≡ max depth (suc h) }
{
    depth.max(usize::from(h) + 1)
}

// Writes the span of a line, counted from 1: the line past its subtree, and how deep that is.
fn put_span(spans: &mut [u16], line: usize, span: Spanned)
    requires { (0 < line) × (2 * line ≤ length spans.old) × (span.end < 2 ^ 16) × (span.depth < 2 ^ 16) }
    ensures { spans.new ≡ set (set spans.old (2 * (line - 1)) span.end) (2 * (line - 1) + 1) span.depth }
{
    spans[2 * line - 2] = span.end as u16;
    spans[2 * line - 1] = span.depth as u16;
}

// What a node comes to that has so many children, if it lacks none, by the lines from `from` on, which were gone over: `first` is the span of
// the first of them, and there are `run` leaves first. Children that are all leaves are not gone over again.
fn over_children(
    order: &[u16],
    spans: &[u16],
    from: usize,
    first: Spanned,
    run: u16,
    children: u16,
) -> Option<Spanned>
    requires measurable { Measurable order.now spans.now × (2 * from ≤ length order.now) × (0 < children) }
    requires spans_are { SpansAre from (drop (2 * from) (take (length order.now) spans.now)) (row_of (drop (2 * from) order.now)) }
    requires first_span { FirstSpan order.now spans.now from first.end first.depth run }
    ensures { result ≡ spanned_by from children (row_of (drop (2 * from) order.now)) }
{
    if children <= run {
        return Some(Spanned {
            end: from + usize::from(children),
            depth: 1,
        });
    }
    let n = order.len() / 2;
    if n <= from {
        return None;
    }
    let mut end = first.end;
    let mut depth = first.depth + 1;
    for _ in 1..children {
        if n <= end {
            return None;
        }
        depth = deeper(depth, spans[2 * end + 1]);
        end = usize::from(spans[2 * end]);
    }
    Some(Spanned { end, depth })
}

// What a row of trees comes to, by the spans of its lines: one tree, or not.
fn whole(order: &[u16], spans: &[u16]) -> Option<usize>
    requires measurable { Measurable order.now spans.now }
    requires spans_are { SpansAre 0 (take (length order.now) spans.now) (row_of order.now) }
    ensures { result ≡ measured_of (tree_of order.now) }
{
    let &[end, depth, ..] = &spans[..order.len()] else {
        return None;
    };
    (usize::from(end) == order.len() / 2).then_some(usize::from(depth))
}

// The depth of the tree that words are, if they are one; and the spans of its lines at the front of `spans`, from the last line to the first.
// `first` is the span of the line behind, and `run` is how many leaves begin there.
pub fn measure(order: &[u16], spans: &mut [u16]) -> Option<usize>
    requires { Measurable order.now spans.old }
    ensures came { result ≡ measured_of (tree_of order.now) }
    ensures listed { (t : Tree) → tree_of order.now ≡ found t → take (length order.now) spans.new
        ≡ spans_from 0 (subtrees t) }
    ensures kept { length spans.new ≡ length spans.old }
{
    let mut first = Spanned { end: 0, depth: 0 };
    let mut run = 0;
    for line in (1..=order.len() / 2).rev() {
        let children = order[2 * line - 1];
        if !node_ok(order[2 * line - 2], children) {
            return None;
        }
        if children == 0 {
            first = Spanned {
                end: line,
                depth: 0,
            };
            run += 1;
        } else {
            first = over_children(order, spans, line, first, run, children)?;
            run = 0;
        }
        put_span(spans, line, first);
    }
    whole(order, spans)
}
