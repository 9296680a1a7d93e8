// What comes of a case of orders:
//   check W W ..             the words are checked to be an order
//   k K                      whether a k is allowed
//   subtree LINE W W ..      the subtree of a line of the order of these words
//   cut LINE D ROOM W W ..   its cut at D, written to an output of so many words
//   part LINE K ROOM W W ..  the part that the line stands for at K, likewise
// The call of `subtree` is made through the function for C (`ofb`); there is none for the others.
use figures::{Depth, asked_number};
use order::Kind;
use runs_kit::fault::Fault;
use runs_kit::lent::{self, HELD, MOST};
use runs_kit::{line, say};

// Runs a case of `check`.
pub fn check(rt: &impl Print, given: &[u16]) -> Result<(), Fault> {
    let answer = order_check::check(given);
    print!(rt; "{}, line {}", answer.number, answer.line)?;
    Ok(())
}

// Runs a case of `k`.
pub fn k(rt: &impl Print, given: &[u16]) -> Result<(), Fault> {
    let &[k] = given else {
        return Err(Fault::NotUnderstood);
    };
    print!(rt; "{}", asked_number(Depth::new(k)))?;
    Ok(())
}

// Runs a case of `subtree`: says the tree at the place that is answered, or that this is no place in the order.
pub fn subtree(rt: &(impl Print + AllocGlobal), given: &[u16]) -> Result<(), Fault> {
    let [line, order @ ..] = given else {
        return Err(Fault::NotUnderstood);
    };
    let part = ofb::ofb_subtree(order, usize::from(*line));
    let start = part.start as usize;
    match order.get(start..start + part.words as usize) {
        Some(words) => print!(rt; "{}", say::tree(rt.alloc(), words)?)?,
        None => print!(rt; "no place in the order")?,
    }
    Ok(())
}

// Runs a case of `cut`: writes the cut at d of a line to an output, and says what came of it.
pub fn cut(rt: &(impl Print + AllocGlobal), given: &[u16]) -> Result<(), Fault> {
    let [line, d, room, order @ ..] = given else {
        return Err(Fault::NotUnderstood);
    };
    let room = line::room(usize::from(*room), MOST)?;
    let mut out = vec![in rt.alloc(); HELD; room]?;
    let written = order_cuts::cut_into(order, usize::from(*line), usize::from(*d), &mut out);
    lent::tree(rt, written, &out)?;
    Ok(())
}

// A kind of part in words.
fn named(kind: Kind) -> &'static str {
    match kind {
        Kind::Absent => "absent",
        Kind::Low => "low",
        Kind::Middle => "middle",
    }
}

// Runs a case of `part`: writes the part of a line to an output, and says what came of it.
pub fn part(rt: &(impl Print + AllocGlobal), given: &[u16]) -> Result<(), Fault> {
    let [line, k, room, order @ ..] = given else {
        return Err(Fault::NotUnderstood);
    };
    let Some(k) = Depth::new(*k) else {
        return Err(Fault::NotUnderstood);
    };
    let room = line::room(usize::from(*room), MOST)?;
    let mut out = vec![in rt.alloc(); HELD; room]?;
    let found = order_parts::part_into(order, usize::from(*line), k, &mut out);
    print!(rt; "{}, ", named(found.kind))?;
    lent::tree(rt, found.written, &out)?;
    Ok(())
}
