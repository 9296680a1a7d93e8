// Lent slices of 16-bit words: compared, copied, shifted and cleared. It knows nothing of entries or trees, and assumes nothing beyond
// each function's `requires`.
#![tactic(auto)]

ghost use Rattle.std.specs.Prelude.{◌≡◌, ◌++◌, suc, ◌+◌, ◌-◌, ◌≤◌, ◌<◌, ◌^◌, pos, negsuc, length, get_or, take, drop, replicate};
ghost use Rattle.words.specs.Base.{over};
ghost use Rattle.words.specs.Compare.{compare_of, before, signed_of, size_of};

use std::cmp::Ordering;

// Compares two slices word by word from the first; a slice that ends first is lower. Answers the place of the first word in which they differ,
// counted from 1: negative if the first slice is lower, positive if it is higher; 0 if they are equal: a signed place, as `SignedPlace` of
// specs/Differences.antt says it in the words of the rules.
pub fn compare(a: &[u16], b: &[u16]) -> i64
    ensures { result ≡ signed_of a.now b.now }
{
    for (i, (x, y)) in a.iter().zip(b).enumerate() {
        if x != y {
            return if x < y { below(i) } else { above(i) };
        }
    }
    match a.len().cmp(&b.len()) {
        Ordering::Less => below(a.len()),
        Ordering::Equal => 0,
        Ordering::Greater => above(b.len()),
    }
}

// The signed place of word i, words counted from 0, where the first slice is higher.
fn above(i: usize) -> i64
    requires { i < 2 ^ 62 }
    ensures { result ≡ pos (suc i) }
{
    (i + 1) as i64
}

// The signed place of word i, words counted from 0, where the first slice is lower.
fn below(i: usize) -> i64
    requires { i < 2 ^ 62 }
    ensures { result ≡ negsuc i }
{
    -((i + 1) as i64)
}

// The place without its sign.
pub fn size(place: i64) -> usize
    requires { size_of place < 2 ^ 63 }
    ensures { result ≡ size_of place }
{
    place.unsigned_abs() as usize
}

// How the first slice stands to the second: the side that comparing tells, for callers that need no place. The slices' own `cmp` takes 1.4 to 2.0
// of the time in a search, where most keys differ in one of their first words.
pub fn standing(a: &[u16], b: &[u16]) -> Ordering
    ensures { result ≡ compare_of a.now b.now }
{
    for (x, y) in a.iter().zip(b) {
        if x != y {
            return x.cmp(y);
        }
    }
    a.len().cmp(&b.len())
}

// The first word, or 0 where there is none.
pub fn first(words: &[u16]) -> u16
    ensures { result ≡ get_or words.now 0 0 }
{
    words.first().copied().unwrap_or(0)
}

// Whether the first slice is lower than the second.
pub fn precedes(a: &[u16], b: &[u16]) -> bool
    ensures { result ≡ before a.now b.now }
{
    standing(a, b).is_lt()
}

// Copies the words to the front of `out`, which has room for them.
pub fn copy(out: &mut [u16], words: &[u16])
    requires { length words.now ≤ length out.old }
    ensures { out.new ≡ over words.now out.old }
{
    // Word by word: by the slice's own `copy_from_slice`, where an entry is copied from one book to another, the archive for C would need `memmove`, and
    // ofb.h says that it needs memcpy and memset alone.
    for (i, word) in words.iter().enumerate() {
        out[i] = *word;
    }
}

// Sets every word to zero.
pub fn clear(out: &mut [u16])
    ensures { out.new ≡ replicate (length out.old) 0 }
{
    out.fill(0);
}

// Moves the first `used` words up by `by`; the first `by` words stay as they were.
pub fn open_gap(part: &mut [u16], used: usize, by: usize)
    requires { by + used ≤ length part.old }
    ensures { part.new ≡ take by part.old ++ (take used part.old ++ drop (by + used) part.old) }
{
    if by != 0 {
        part.copy_within(..used, by);
    }
}

// Moves the `n` words from word `by` on down to the front.
pub fn slide(part: &mut [u16], by: usize, n: usize)
    requires { by + n ≤ length part.old }
    ensures { part.new ≡ take n (drop by part.old) ++ drop n part.old }
{
    if by != 0 {
        part.copy_within(by..by + n, 0);
    }
}

// Moves the words from `by` up to `used` down to the front, and clears the words that are freed.
pub fn close_gap(part: &mut [u16], used: usize, by: usize)
    requires { (by ≤ used) × (used ≤ length part.old) }
    ensures { part.new ≡ take (used - by) (drop by part.old) ++ (replicate by 0 ++ drop used part.old) }
{
    let keep = used - by;
    slide(part, by, keep);
    clear(&mut part[keep..used]);
}
