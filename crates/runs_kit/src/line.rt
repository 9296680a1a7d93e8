// What stands on a line of a file of cases: a kind, and behind it numbers, words or a text, each behind one space. Assumes nothing.
use crate::fault::Fault;
use crate::{kept, lent};
use std::alloc::Global;
use std::str;

// The words that a list may have: one more than a kept file has bytes.
const MOST_WORDS: usize = kept::MOST_FILE + 1;

// The bytes that a text may have: one fewer than an output that is lent.
const MOST_TEXT: usize = lent::MOST - 1;

// What stands before the first space, and what behind it; of bytes with no space, all of them and none.
pub fn split(bytes: &[u8]) -> (&[u8], Option<&[u8]>) {
    match bytes.iter().position(|byte| *byte == b' ') {
        Some(at) => (&bytes[..at], Some(&bytes[at + 1..])),
        None => (bytes, None),
    }
}

// The number that these digits are, if it is one that a word holds.
pub fn number(digits: &[u8]) -> Option<u16> {
    if !digits.iter().all(|digit| digit.is_ascii_digit()) {
        return None;
    }
    str::from_utf8(digits).ok()?.parse().ok()
}

// So many words or bytes, if there may be so many.
pub fn room(count: usize, most: usize) -> Result<usize, Fault> {
    if count <= most {
        Ok(count)
    } else {
        Err(Fault::NotUnderstood)
    }
}

// What a piece of a list puts behind the words before it, a word and how many times: itself once, or, for *N, the last of them N - 1 times.
fn meant_by(piece: &[u8], before: &[u16]) -> Option<(u16, u16)> {
    match piece.strip_prefix(b"*") {
        Some(times) => Some((*before.last()?, number(times)?.checked_sub(1)?)),
        None => Some((number(piece)?, 1)),
    }
}

// The words of a list; *N behind a word lets it stand N times in all.
pub fn words(alloc: Global, list: Option<&[u8]>) -> Result<Vec<u16>, Fault> {
    let mut words = Vec::new(alloc);
    let Some(list) = list else {
        return Ok(words);
    };
    for piece in list.split(|byte| *byte == b' ') {
        let (word, times) = meant_by(piece, &words).ok_or(Fault::NotUnderstood)?;
        let count = room(words.len() + usize::from(times), MOST_WORDS)?;
        words.resize(count, word)?;
    }
    Ok(words)
}

// The byte that a byte of a text stands for: LF for |, CR for ^, a tab for ~, byte 0 for @, byte 255 for $, and else itself.
fn meant(byte: u8) -> u8 {
    match byte {
        b'|' => b'\n',
        b'^' => b'\r',
        b'~' => b'\t',
        b'@' => 0,
        b'$' => 255,
        _ => byte,
    }
}

// The text that is spelt so.
pub fn text(alloc: Global, spelt: Option<&[u8]>) -> Result<Vec<u8>, Fault> {
    let spelt = spelt.ok_or(Fault::NotUnderstood)?;
    room(spelt.len(), MOST_TEXT)?;
    Ok(spelt.iter().map(|byte| meant(*byte)).collect(alloc)?)
}
