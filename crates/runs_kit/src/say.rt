// How what came of a case is printed: bytes, words, and trees in the notation of document 000. Assumes nothing.
use std::alloc::{AllocError, Global};
use std::fmt;

// Whether what came back is the same, in words.
pub fn came_back(same: bool) -> &'static str {
    if same { "the same" } else { "not the same" }
}

// Bytes, so that they stand in one line: LF as |, and any other that does not print by its number.
#[derive(Clone, Copy)]
pub struct Shown<'a>(pub &'a [u8]);

impl fmt::Display for Shown<'_> {
    fn fmt<W: fmt::Write>(&self, f: &mut fmt::Formatter<W>) -> fmt::Result {
        for byte in self.0 {
            match *byte {
                b'\n' => write!(f, "|")?,
                b' '..=b'~' => write!(f, "{}", char::from(*byte))?,
                other => write!(f, "<{other}>")?,
            }
        }
        Ok(())
    }
}

// Words with a blank before each, and each run of equal words as one of them and their number.
#[derive(Clone, Copy)]
pub struct Runs<'a>(pub &'a [u16]);

impl fmt::Display for Runs<'_> {
    fn fmt<W: fmt::Write>(&self, f: &mut fmt::Formatter<W>) -> fmt::Result {
        for run in self.0.chunk_by(|a, b| a == b) {
            match run {
                [] => {}
                [word] => write!(f, " {word}")?,
                [word, ..] => write!(f, " {word} *{}", run.len())?,
            }
        }
        Ok(())
    }
}

// Every word of a slice as in `Runs`, or that it has none.
#[derive(Clone, Copy)]
pub struct Slice<'a>(pub &'a [u16]);

impl fmt::Display for Slice<'_> {
    fn fmt<W: fmt::Write>(&self, f: &mut fmt::Formatter<W>) -> fmt::Result {
        if self.0.is_empty() {
            write!(f, " none")
        } else {
            write!(f, "{}", Runs(self.0))
        }
    }
}

// The text of the tree that words are, or that there is none.
pub fn tree(alloc: Global, words: &[u16]) -> Result<String, AllocError> {
    let mut text = String::new(alloc);
    if words.is_empty() {
        text.push_str("nothing")?;
        return Ok(text);
    }
    let behind = put_tree(&mut text, &mut Vec::new(alloc), words)?;
    if !behind.is_empty() {
        text.push_str(" and not just that")?;
    }
    Ok(text)
}

// Puts the tree that stands at the front of the words, or so much of it as they have, node by node, and gives the words behind. `rows` has for each
// row of trees that is open, the innermost last, how many are to come behind the one at hand; at first none is open.
fn put_tree<'a>(
    text: &mut String,
    rows: &mut Vec<u16>,
    words: &'a [u16],
) -> Result<&'a [u16], AllocError> {
    let mut rest = words;
    while let [code, children, behind @ ..] = rest {
        write!(text, "{code}")?;
        rest = behind;
        match children.checked_sub(1) {
            None => end_tree(text, rows)?,
            Some(others) => {
                text.push('(')?;
                rows.push(others)?;
            }
        }
        if rows.is_empty() {
            break;
        }
    }
    close_rows(text, rows)?;
    Ok(rest)
}

// Puts what stands behind a whole tree: a `)` for each open row that ends with it, from the innermost on, and a comma if a row is still open, whose
// next tree is then to come.
fn end_tree(text: &mut String, rows: &mut Vec<u16>) -> Result<(), AllocError> {
    while let Some(others) = rows.pop() {
        if let Some(others) = others.checked_sub(1) {
            rows.push(others)?;
            return text.push(',');
        }
        text.push(')')?;
    }
    Ok(())
}

// Closes the rows that are still open where the words end, from the innermost on, with a comma behind each `)` where trees are lacking in the row
// around.
fn close_rows(text: &mut String, rows: &[u16]) -> Result<(), AllocError> {
    let Some((_, around)) = rows.split_last() else {
        return Ok(());
    };
    text.push(')')?;
    for others in around.iter().rev() {
        text.push_str(if *others == 0 { ")" } else { ",)" })?;
    }
    Ok(())
}
