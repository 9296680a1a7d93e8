// What a call did with a lent output: its answer, what it wrote at the front, and what stands behind that. Assumes nothing.
use crate::say::{Runs, Shown};
use crate::{mark, say};
use figures::Written;
use std::alloc::{AllocError, Global};
use std::io;

// The words or bytes that may be lent to be written an order, a part or a form to: more than any has.
pub const MOST: usize = 640;

// What every word of a lent output holds before a call.
pub const HELD: u16 = 7;

// What every byte of a lent output holds before a call.
pub const HELD_BYTE: u8 = b'#';

// Of what was written so many words are said; of more, their mark.
const MANY: usize = 512;

// Says an answer, and gives what was written at the front of the output, and what stands behind it. Where nothing was written there, says why.
fn parted<'a, T>(rt: &impl Print, answer: Written, out: &'a [T]) -> io::Result<(&'a [T], &'a [T])> {
    let Written {
        number,
        line,
        count,
    } = answer;
    print!(rt; "{number}, line {line}, {count} written:")?;
    let Some((front, behind)) = out.split_at_checked(count) else {
        print!(rt; " more than was lent")?;
        return Ok((&[], out));
    };
    if front.is_empty() {
        print!(rt; " nothing")?;
    }
    Ok((front, behind))
}

// Says the words behind those that were written, if there are any.
fn behind(rt: &impl Print, rest: &[u16]) -> io::Result<()> {
    if rest.is_empty() {
        return Ok(());
    }
    print!(rt; ", then{}", Runs(rest))
}

// Says what was written, or its mark where it is much, and the words behind it.
pub fn words(rt: &impl Print, answer: Written, out: &[u16]) -> io::Result<()> {
    let (front, rest) = parted(rt, answer, out)?;
    if MANY < front.len() {
        print!(rt; " mark {}", mark::of(front))?;
    } else {
        print!(rt; "{}", Runs(front))?;
    }
    behind(rt, rest)
}

// Says the tree that was written, and the words behind it.
pub fn tree(rt: &(impl Print + AllocGlobal), answer: Written, out: &[u16]) -> io::Result<()> {
    let (front, rest) = parted(rt, answer, out)?;
    if !front.is_empty() {
        print!(rt; " {}", say::tree(rt.alloc(), front)?)?;
    }
    behind(rt, rest)
}

// Bytes as words.
fn widened(alloc: Global, bytes: &[u8]) -> Result<Vec<u16>, AllocError> {
    bytes.iter().map(|byte| u16::from(*byte)).collect(alloc)
}

// Says the text that was written, and the bytes behind it as numbers.
pub fn text(rt: &(impl Print + AllocGlobal), answer: Written, out: &[u8]) -> io::Result<()> {
    let (front, rest) = parted(rt, answer, out)?;
    if !front.is_empty() {
        print!(rt; " {}", Shown(front))?;
    }
    behind(rt, &widened(rt.alloc(), rest)?)
}

// Says the bytes that were written as `words` says words.
pub fn bytes(rt: &(impl Print + AllocGlobal), answer: Written, out: &[u8]) -> io::Result<()> {
    words(rt, answer, &widened(rt.alloc(), out)?)
}
