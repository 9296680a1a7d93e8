// An order's own book: the book of some teachings of it, listed in a lent slice. Each part is entered once, where it belongs, so that the parts
// ascend and a book can be weighed against them and changed by them in one pass. Assumes nothing beyond each function's `requires`.
#![tactic(auto)]

ghost use Rattle.std.specs.Prelude.{◌≡◌, ◌+◌, ◌*◌, ◌/◌, ◌≤◌, ◌<◌, length, replicate};
ghost use Rattle.words.specs.Base.{over};
ghost use Rattle.figures.specs.Limits.{least_k, greatest_k};
ghost use Rattle.section.specs.Entries.{counted, entry_words, section_words};
ghost use Rattle.section_change.specs.Editing.{padded, extent_of};
ghost use Rattle.order.specs.Standing.{cut_of};
ghost use Rattle.book.specs.Book.{section_of, lay};
ghost use Rattle.book.specs.Decoding.{places_of};
ghost use Rattle.book_listing.specs.Own.{own_words, own_of, part_words, list_of, room_for};

use book::{Places, Section};
use figures::{Depth, limits};
use order_check::Lines;
use section_change::Size;

// The most words that an entry takes.
const ENTRY_WORDS: usize = 2 + limits::MOST_WORDS;

// The top of an order and all its low and middle parts take no more words: two for the head of the top's entry, two for that of each line's, and
// two for each node in at most k of these trees.
const LIST_WORDS: usize = 2 + limits::MOST_NODES * (2 + 2 * Depth::GREATEST as usize);

// No order's own book takes more words: its head, the order, and its top with all its low and middle parts.
pub const OWN_WORDS: usize = limits::HEAD_WORDS + ENTRY_WORDS + LIST_WORDS;

// Writes an entry that counts `times` for the cut at d of the subtree of a line, the lines counted from 0, to the front of `out`. Answers its
// number of words.
fn write_entry(lines: &Lines, line: usize, d: usize, times: u16, out: &mut [u16]) -> usize
    requires line_in_bounds { line < length lines.now.order.words.now / 2 }
    requires d_in_bounds { 2 + length (cut_of lines.now.order.words.now (line * 2) d) ≤ length out.old }
    ensures came { result ≡ 2 + length (cut_of lines.now.order.words.now (line * 2) d) }
    ensures wrote { out.new ≡ over (entry_words (counted (cut_of lines.now.order.words.now (line * 2) d) times)) out.old }
{
    let count = order_cuts::put_cut(lines, line, d, &mut out[2..]);
    out[0] = (count / 2) as u16;
    out[1] = times;
    2 + count
}

// Lists the order's low parts, or its middle parts, at the front of `out`, whose words are zero: an entry that counts `times` for each, once
// however often it occurs, ascending. The words of either kind are the cut at k-1, since that of a low part is the subtree itself.
// (`low` is a test, and no `order::Kind`: that has a third case.)
fn list_parts(lines: &Lines, k: Depth, low: bool, times: u16, out: &mut [u16]) -> Size
    requires least_k_le_k { least_k ≤ k.k }
    requires le_times { 1 ≤ times }
    requires out_value { out.old ≡ replicate (length out.old) 0 }
    requires order_in_bounds { part_words low k.k lines.now.order.words.now ≤ length out.old }
    ensures came { result ≡ extent_of (list_of low k.k times lines.now.order.words.now) }
    ensures wrote { out.new ≡
        padded (length out.old) (section_words (list_of low k.k times lines.now.order.words.now)) }
{
    let mut entry = [0u16; ENTRY_WORDS];
    let mut size = Size { used: 0, many: 0 };
    for line in 0..lines.order.words.len() / 2 {
        if order_parts::is_low(lines.order.spans, line, k) == low {
            let end = write_entry(lines, line, k.of_middles(), times, &mut entry);
            size = section_change::enter_once(out, size.many, size.used, &entry[..end]);
        }
    }
    size
}

// Lists a section of the order's own book at the front of `out`, whose words are zero.
fn list_section(lines: &Lines, k: Depth, section: Section, times: u16, out: &mut [u16]) -> Size
    requires least_k_le_k { least_k ≤ k.k }
    requires le_times { 1 ≤ times }
    requires out_value { out.old ≡ replicate (length out.old) 0 }
    requires order_in_bounds { room_for section k.k lines.now.order.words.now ≤ length out.old }
    ensures came { result ≡ extent_of (section_of section (own_of k.k times lines.now.order.words.now)) }
    ensures wrote { out.new ≡
        padded (length out.old) (section_words (section_of section (own_of k.k times lines.now.order.words.now))) }
{
    match section {
        Section::Taught => {
            let used = write_entry(lines, 0, limits::GREATEST_DEPTH, times, out);
            Size { used, many: 1 }
        }
        Section::Tops => {
            let used = write_entry(lines, 0, k.of_tops(), times, out);
            Size { used, many: 1 }
        }
        Section::Lows => list_parts(lines, k, true, times, out),
        Section::Middles => list_parts(lines, k, false, times, out),
    }
}

// Lists the order's own book of `times` teachings in `own`, whose words are zero. Answers where its sections start.
pub fn list_own(lines: &Lines, k: Depth, times: u16, own: &mut [u16]) -> Places
    requires least_k_le_k { (least_k ≤ k.k) × (k.k ≤ greatest_k) }
    requires le_times { 1 ≤ times }
    requires own_value { own.old ≡ replicate (length own.old) 0 }
    requires own_len { length own.old ≡ own_words }
    ensures came { result ≡ places_of (own_of k.k times lines.now.order.words.now) }
    ensures wrote { own.new ≡ lay own_words (own_of k.k times lines.now.order.words.now) }
{
    let taught = limits::HEAD_WORDS;
    let whole = list_section(lines, k, Section::Taught, times, &mut own[taught..]);
    let tops = taught + whole.used;
    let top = list_section(lines, k, Section::Tops, times, &mut own[tops..]);
    let lows = tops + top.used;
    let low = list_section(lines, k, Section::Lows, times, &mut own[lows..]);
    let middles = lows + low.used;
    let middle = list_section(lines, k, Section::Middles, times, &mut own[middles..]);
    let used = middles + middle.used;
    own[limits::K_WORD] = k.value();
    own[limits::USED_WORD] = used as u16;
    own[limits::LIVE_WORD] = times;
    own[limits::TAUGHT_WORD] = whole.many as u16;
    own[limits::TOPS_WORD] = top.many as u16;
    own[limits::LOWS_WORD] = low.many as u16;
    own[limits::MIDDLES_WORD] = middle.many as u16;
    Places {
        k,
        tops,
        lows,
        middles,
        used,
    }
}
