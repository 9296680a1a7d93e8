// What comes of the case on a line: its kind, and behind that a text or, mostly, a list of words, each behind one space; *N behind a word lets it
// stand N times in all. A line that begins with # is no case: it says what the next cases are about.
use crate::kinds::Kind;
use crate::{books, forms, orders, stored};
use runs_kit::fault::Fault;
use runs_kit::kept::Kept;
use runs_kit::line;
use std::io;

// Runs a case by its name and what stands behind that, with what is kept.
fn case(
    rt: &(impl Print + AllocGlobal),
    name: &[u8],
    behind: Option<&[u8]>,
    kept: &mut Kept,
) -> Result<(), Fault> {
    let kind = Kind::from_name(name).ok_or(Fault::NotUnderstood)?;
    let given = || line::words(rt.alloc(), behind);
    match kind {
        Kind::Check => orders::check(rt, &given()?),
        Kind::K => orders::k(rt, &given()?),
        Kind::Subtree => orders::subtree(rt, &given()?),
        Kind::Cut => orders::cut(rt, &given()?),
        Kind::Part => orders::part(rt, &given()?),
        Kind::Read => forms::read(rt, behind),
        Kind::Back => forms::back(rt, behind),
        Kind::Write => forms::write(rt, &given()?),
        Kind::There => forms::there(rt, &given()?),
        Kind::Form => books::form(rt, &given()?),
        Kind::Open => books::open(rt, &given()?, kept),
        Kind::Lay => books::lay(rt, &given()?, kept),
        Kind::Show => books::show(rt, &given()?, kept),
        Kind::Teach => books::teach(rt, &given()?, kept),
        Kind::Withdraw => books::withdraw(rt, &given()?, kept),
        Kind::Ask => books::ask(rt, &given()?, kept),
        Kind::Choose => books::choose(rt, &given()?, kept),
        Kind::Agrees => books::agrees(rt, &given()?, kept),
        Kind::Join => books::join(rt, &given()?, kept),
        Kind::File => stored::file(rt, &given()?, kept),
        Kind::More => stored::more(rt, &given()?, kept),
        Kind::Put => stored::put(rt, &given()?, kept),
        Kind::Store => stored::store(rt, &given()?, kept),
        Kind::Load => stored::load(rt, &given()?, kept),
        Kind::Front => stored::front(rt, &given()?, kept),
        Kind::With => stored::with(rt, &given()?, kept),
        Kind::Start => stored::start(rt, &given()?, kept),
        Kind::Trip => stored::trip(rt, &given()?, kept),
        Kind::Again => stored::again(rt, &given()?, kept),
        Kind::Swap => stored::swap(rt, &given()?, kept),
    }
}

// Says a line, and what comes of the case on it.
pub fn run(rt: &(impl Print + AllocGlobal), line: &[u8], kept: &mut Kept) -> io::Result<()> {
    rt.write_all(line)?;
    println!(rt; "")?;
    let (name, behind) = line::split(line);
    if matches!(name, b"#") {
        return Ok(());
    }
    print!(rt; "  ")?;
    match case(rt, name, behind, kept) {
        Ok(()) => {}
        Err(Fault::NotUnderstood) => print!(rt; "not understood")?,
        Err(Fault::Io(error)) => return Err(error),
    }
    println!(rt; "")
}
