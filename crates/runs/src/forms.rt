// What comes of a case of forms:
//   read ROOM TEXT       the text is read to an output of so many words; in it | stands for LF, and a few signs for other bytes
//   write ROOM W W ..    the order of these words is written to an output of so many bytes
//   back TEXT            the text is read and written back
//   there W W ..         the order of these words is written and read back
// All calls are made through the functions for C (`ofb`).
use figures::Written;
use figures::numbers::DONE;
use ofb::OfbAnswer;
use runs_kit::fault::Fault;
use runs_kit::lent::{self, HELD, HELD_BYTE, MOST};
use runs_kit::{line, say};

// Runs a case of `read`: reads the text to an output, and says what came of it.
pub fn read(rt: &(impl Print + AllocGlobal), behind: Option<&[u8]>) -> Result<(), Fault> {
    let (room, spelt) = line::split(behind.ok_or(Fault::NotUnderstood)?);
    let room = line::number(room).ok_or(Fault::NotUnderstood)?;
    let room = line::room(usize::from(room), MOST)?;
    let mut out = vec![in rt.alloc(); HELD; room]?;
    let text = line::text(rt.alloc(), spelt)?;
    let answer = ofb::ofb_read_text(&text, &mut out);
    lent::words(rt, told(answer), &out)?;
    Ok(())
}

// Runs a case of `write`: writes the order to an output, and says what came of it.
pub fn write(rt: &(impl Print + AllocGlobal), given: &[u16]) -> Result<(), Fault> {
    let [room, order @ ..] = given else {
        return Err(Fault::NotUnderstood);
    };
    let room = line::room(usize::from(*room), MOST)?;
    let mut out = vec![in rt.alloc(); HELD_BYTE; room]?;
    let answer = ofb::ofb_write_text(order, &mut out);
    lent::text(rt, told(answer), &out)?;
    Ok(())
}

// An answer of a function for C, as it is said.
pub fn told(answer: OfbAnswer) -> Written {
    Written {
        number: answer.number,
        line: usize::from(answer.line),
        count: answer.written as usize,
    }
}

// What a call wrote to an output, if it was done.
fn written<T>(answer: OfbAnswer, out: &[T]) -> Option<&[T]> {
    if answer.number != DONE {
        return None;
    }
    out.get(..answer.written as usize)
}

// Whether a text is read, and its words are written, to the same bytes.
fn is_back(text: &[u8]) -> bool {
    let mut out = [HELD; MOST];
    let read = ofb::ofb_read_text(text, &mut out);
    let Some(order) = written(read, &out) else {
        return false;
    };
    let mut bytes = [HELD_BYTE; MOST];
    let wrote = ofb::ofb_write_text(order, &mut bytes);
    written(wrote, &bytes) == Some(text)
}

// Runs a case of `back`.
pub fn back(rt: &(impl Print + AllocGlobal), behind: Option<&[u8]>) -> Result<(), Fault> {
    let text = line::text(rt.alloc(), behind)?;
    print!(rt; "{}", say::came_back(is_back(&text)))?;
    Ok(())
}

// Whether an order is written, and its text is read, to the same words.
fn is_there(order: &[u16]) -> bool {
    let mut out = [HELD_BYTE; MOST];
    let wrote = ofb::ofb_write_text(order, &mut out);
    let Some(text) = written(wrote, &out) else {
        return false;
    };
    let mut words = [HELD; MOST];
    let read = ofb::ofb_read_text(text, &mut words);
    written(read, &words) == Some(order)
}

// Runs a case of `there`.
pub fn there(rt: &impl Print, order: &[u16]) -> Result<(), Fault> {
    print!(rt; "{}", say::came_back(is_there(order)))?;
    Ok(())
}
