// The part that a line of an order stands for at k, by the depth of its uncut subtree. Assumes nothing beyond the `requires` of an inner function.
#![tactic(auto)]

ghost use Rattle.std.specs.Prelude.{◌≡◌, ◌+◌, ◌-◌, ◌*◌, ◌/◌, ◌<◌, leb, length, get_or};
ghost use Rattle.words.specs.Base.{when◌then◌else◌};
ghost use Rattle.order.specs.Answers.{no_part, part_writing, part_into_of};
ghost use Rattle.order.specs.declared.Kind.TheVariants.{Low, Middle};

use figures::{Depth, Written, limits, numbers, wrote};
use order::{Kind, PartWritten};
use order_check::go_over;
use order_cuts::{cut_line, find_in};

// Whether a line, counted from 0, stands for a low part at k, by the spans of the order's lines: its subtree is at most k-2 deep.
pub fn is_low(spans: &[u16], line: usize, k: Depth) -> bool
    requires { line * 2 + 1 < length spans.now }
    ensures { result ≡ leb (get_or spans.now (line * 2 + 1) 0) (k.k - 2) }
{
    usize::from(spans[line * 2 + 1]) <= k.of_tops()
}

// A number, and no part.
fn no_part(number: u16) -> PartWritten
    ensures { result ≡ no_part number }
{
    PartWritten {
        kind: Kind::Absent,
        written: wrote(number, 0),
    }
}

// The kind of a part that is low or not.
fn kind_of(low: bool) -> Kind
    ensures { result ≡ (when low then Low else Middle) }
{
    if low { Kind::Low } else { Kind::Middle }
}

// The part that a line stands for at k: its kind, and its words to the front of `out`. The words of either kind are the cut at k-1, since
// that of a low part is the subtree itself.
pub fn part_into(order: &[u16], line: usize, k: Depth, out: &mut [u16]) -> PartWritten
    ensures { part_writing result out.new ≡ part_into_of order.now line k.k out.old }
{
    let mut spans = [0u16; limits::MOST_WORDS];
    let passed = match go_over(order, &mut spans) {
        Ok(passed) => passed,
        Err(refusal) => return no_part(refusal.number()),
    };
    let Some(at) = find_in(&passed, line) else {
        return no_part(numbers::DONE);
    };
    let kind = kind_of(is_low(passed.spans, at / 2, k));
    let written = Written::from(cut_line(passed, at / 2, k.of_middles(), out));
    PartWritten { kind, written }
}
