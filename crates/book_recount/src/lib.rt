// What the taught orders of a book count in one of its sections, counted anew: each order takes its turn, and each of its parts is tallied for the
// section's entry that it has, once a turn by a mark. Assumes nothing beyond each function's `requires`.
#![tactic(auto)]

ghost use Rattle.std.specs.Prelude.{◌≡◌, true, ◌+◌, ◌*◌, ◌/◌, ◌≤◌, ◌<◌, length, drop, replicate};
ghost use Rattle.figures.specs.Limits.{least_k, most_nodes, most_words};
ghost use Rattle.figures.specs.Numbers.{done};
ghost use Rattle.section.specs.Entries.{width, first_entry, has};
ghost use Rattle.section_tally.specs.Tallying.{listed, Indexed, sought_in, Few, tallied_once, marked_once, TurnReady, Taken};
ghost use Rattle.order.specs.Reading.{cause_of};
ghost use Rattle.order.specs.Standing.{cut_of};
ghost use Rattle.book.specs.Decoding.{book_in};
ghost use Rattle.book.specs.Holding.{Holds};
ghost use Rattle.book_listing.specs.Own.{list_of};
ghost use Rattle.book_recount.specs.Tallies.{parts_in, all_known, tallied_all, marked_all, Indexed-prop};

use book::{Places, Section};
use figures::{Depth, limits};
use order_check::{Lines, go_over, level_lines};
use section::past;

// The turn of a taught order: its number, and how often the order counts.
#[derive(Clone, Copy)]
pub struct Turn {
    pub number: u16,
    pub by: u16,
}

// The listed entries of a section of a book, by the places where they start.
#[derive(Clone, Copy)]
struct Entries<'a> {
    book: &'a [u16],
    starts: &'a [u16],
    ghost indexed: { Indexed starts.now book.now } by { Indexed-prop starts.now book.now },
}

// Tallies the cut at d of the subtree of a line, the lines counted from 0, for its entry among the listed ones, once a turn, by way of a scratch
// for its words. Answers whether it has an entry.
fn tally_cut(
    lines: &Lines,
    line: usize,
    d: usize,
    part: &mut [u16],
    entries: &Entries,
    counts: &mut [u16],
    marks: &mut [u16],
    turn: Turn,
) -> bool
    requires line_in_bounds { line < length lines.now.order.words.now / 2 }
    requires most_words_in_bounds { most_words ≤ length part.old }
    requires counts_len { (length counts.old ≡ length entries.now.starts.now) × (length marks.old ≡ length entries.now.starts.now) }
    requires few { Few (tallied_once turn.by turn.number
        (sought_in (cut_of lines.now.order.words.now (line * 2) d) (listed entries.now.starts.now entries.now.book.now)) marks.old counts.old) }
    ensures known { result ≡ has (cut_of lines.now.order.words.now (line * 2) d) (listed entries.now.starts.now entries.now.book.now) }
    ensures counted { counts.new ≡ tallied_once turn.by turn.number
        (sought_in (cut_of lines.now.order.words.now (line * 2) d) (listed entries.now.starts.now entries.now.book.now)) marks.old
        counts.old }
    ensures noted { marks.new ≡ marked_once turn.number
        (sought_in (cut_of lines.now.order.words.now (line * 2) d) (listed entries.now.starts.now entries.now.book.now)) marks.old }
{
    let end = order_cuts::put_cut(lines, line, d, part);
    let Entries { book, starts, .. } = entries;
    section_tally::tally_once(
        book,
        starts,
        counts,
        marks,
        &part[..end],
        turn.number,
        turn.by,
    )
}

// Tallies each of the order's low parts, or of its middle parts, as `tally_cut` does one. Answers false where one has no entry;
// what was tallied then is of no use. (`low` is a test, and no `order::Kind`: that has a third case.)
fn tally_parts(
    lines: &Lines,
    k: Depth,
    low: bool,
    part: &mut [u16],
    entries: &Entries,
    counts: &mut [u16],
    marks: &mut [u16],
    turn: Turn,
) -> bool
    requires least_k_le_k { least_k ≤ k.k }
    requires most_words_in_bounds { most_words ≤ length part.old }
    requires turn_ready { TurnReady turn.number turn.by (list_of low k.k 1 lines.now.order.words.now)
        (listed entries.now.starts.now entries.now.book.now) counts.old marks.old }
    ensures { Taken turn.number turn.by (list_of low k.k 1 lines.now.order.words.now)
        (listed entries.now.starts.now entries.now.book.now) counts.old marks.old counts.new marks.new result }
{
    let d = k.of_middles();
    for line in 0..lines.order.words.len() / 2 {
        if order_parts::is_low(lines.order.spans, line, k) == low
            && !tally_cut(lines, line, d, part, entries, counts, marks, turn)
        {
            return false;
        }
    }
    true
}

// Tallies all that one teaching of the order counts in a section, T included, for the section's listed entries in a book, each once by marks of
// this turn. Answers false where one has no entry; what was tallied then is of no use.
fn tally_section(
    lines: &Lines,
    k: Depth,
    section: Section,
    part: &mut [u16],
    entries: &Entries,
    counts: &mut [u16],
    marks: &mut [u16],
    turn: Turn,
) -> bool
    requires least_k_le_k { least_k ≤ k.k }
    requires most_words_in_bounds { most_words ≤ length part.old }
    requires turn_ready { TurnReady turn.number turn.by (parts_in section k.k lines.now.order.words.now)
        (listed entries.now.starts.now entries.now.book.now) counts.old marks.old }
    ensures { Taken turn.number turn.by (parts_in section k.k lines.now.order.words.now)
        (listed entries.now.starts.now entries.now.book.now) counts.old marks.old counts.new marks.new result }
{
    match section {
        Section::Taught => {
            let d = limits::GREATEST_DEPTH;
            tally_cut(lines, 0, d, part, entries, counts, marks, turn)
        }
        Section::Tops => tally_cut(lines, 0, k.of_tops(), part, entries, counts, marks, turn),
        Section::Lows => tally_parts(lines, k, true, part, entries, counts, marks, turn),
        Section::Middles => tally_parts(lines, k, false, part, entries, counts, marks, turn),
    }
}

// Tallies all that one teaching of an order counts in a section, as `tally_section` does, once the order is gone over. Lent as scratch: spans and
// levels for its lines, and words for a part.
fn take_turn(
    order: &[u16],
    k: Depth,
    section: Section,
    spans: &mut [u16],
    levels: &mut [u8],
    part: &mut [u16],
    entries: &Entries,
    counts: &mut [u16],
    marks: &mut [u16],
    turn: Turn,
) -> bool
    requires order_value { cause_of order.now ≡ done }
    requires least_k_le_k { least_k ≤ k.k }
    requires most_words_in_bounds { (most_words ≤ length spans.old) × (most_nodes ≤ length levels.old) × (most_words ≤ length part.old) }
    requires turn_ready { TurnReady turn.number turn.by (parts_in section k.k order.now)
        (listed entries.now.starts.now entries.now.book.now) counts.old marks.old }
    ensures { Taken turn.number turn.by (parts_in section k.k order.now)
        (listed entries.now.starts.now entries.now.book.now) counts.old marks.old counts.new marks.new result }
{
    let order = go_over(order, spans).unwrap();
    let lines = level_lines(order, levels);
    tally_section(&lines, k, section, part, entries, counts, marks, turn)
}

// Tallies what the taught order at word `at` counts in a section, for the section's listed entries, by marks of this turn. Lent as
// scratch: spans and levels for the order's lines, and words for a part. Answers false where a part has no entry; what was tallied then is of no use.
fn tally_order(
    entries: &Entries,
    at: usize,
    k: Depth,
    section: Section,
    spans: &mut [u16],
    levels: &mut [u8],
    part: &mut [u16],
    counts: &mut [u16],
    marks: &mut [u16],
    turn: u16,
) -> bool
    requires book_in_bounds { (at + width (drop at entries.now.book.now) ≤ length entries.now.book.now)
        × (cause_of (first_entry (drop at entries.now.book.now)).key ≡ done) }
    requires least_k_le_k { least_k ≤ k.k }
    requires most_words_in_bounds { (most_words ≤ length spans.old) × (most_nodes ≤ length levels.old) × (most_words ≤ length part.old) }
    requires turn_ready { TurnReady turn (first_entry (drop at entries.now.book.now)).count
        (parts_in section k.k (first_entry (drop at entries.now.book.now)).key)
        (listed entries.now.starts.now entries.now.book.now) counts.old marks.old }
    ensures { Taken turn (first_entry (drop at entries.now.book.now)).count
        (parts_in section k.k (first_entry (drop at entries.now.book.now)).key)
        (listed entries.now.starts.now entries.now.book.now) counts.old marks.old counts.new marks.new result }
{
    let book = entries.book;
    let order = &book[at + 2..past(book, at)];
    let by = book[at + 1];
    let own = Turn { number: turn, by };
    take_turn(
        order, k, section, spans, levels, part, entries, counts, marks, own,
    )
}

// Tallies what all taught orders count in a section, for the section's listed entries, none of which is marked. An order's turn has the number of
// orders left. Answers false where a part has no entry; what was tallied then is of no use.
pub fn tally_taught(
    book: &[u16],
    places: Places,
    section: Section,
    starts: &[u16],
    counts: &mut [u16],
    marks: &mut [u16],
) -> bool
    requires holds { Holds book.now places }
    requires indexed { Indexed starts.now book.now }
    requires counts_len { (length counts.old ≡ length starts.now)
        × Few (tallied_all section (book_in book.now).k (book_in book.now).T (listed starts.now book.now) counts.old) }
    requires marks_value { marks.old ≡ replicate (length starts.now) 0 }
    ensures known { result ≡ all_known section (book_in book.now).k (book_in book.now).T
        (listed starts.now book.now) }
    ensures counted { result ≡ true → counts.new ≡
        tallied_all section (book_in book.now).k (book_in book.now).T (listed starts.now book.now)
        counts.old }
    ensures noted { result ≡ true → marks.new ≡
        marked_all section (book_in book.now).k (book_in book.now).T (listed starts.now book.now)
        marks.old }
{
    let entries = Entries { book, starts };
    let mut spans = [0u16; limits::MOST_WORDS];
    let mut levels = [0u8; limits::MOST_NODES];
    let mut part = [0u16; limits::MOST_WORDS];
    let mut at = limits::HEAD_WORDS;
    for left in (1..=book[limits::TAUGHT_WORD]).rev() {
        if !tally_order(
            &entries,
            at,
            places.k,
            section,
            &mut spans,
            &mut levels,
            &mut part,
            counts,
            marks,
            left,
        ) {
            return false;
        }
        at = past(book, at);
    }
    true
}
