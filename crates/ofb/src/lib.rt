// The C interface of the library: the twelve functions of include/ofb.h, each of which calls the function below it and hands its answer on in C's
// numbers. A slice is a pointer and a length to C. `ofb_c` exports them. Assumes nothing beyond each inner function's `requires`.
#![tactic(auto)]

ghost use Rattle.std.specs.Prelude.{◌≡◌, ◌^◌, ◌<◌};
ghost use Rattle.order.specs.Answers.{subtree_of};
ghost use Rattle.book.specs.Opening.{open_of};
ghost use Rattle.section.specs.Near.{Small};
ghost use Rattle.book_judging.specs.Expecting.{judgement_of};
ghost use Rattle.book_choosing.specs.Choosing.{choose_of};
ghost use Rattle.book_teaching.specs.Calls.{teach_of, withdraw_of};
ghost use Rattle.book_joining.specs.Joining.{join_of};
ghost use Rattle.book.specs.Checking.{agree_of};
ghost use Rattle.book_filing.specs.Files.{write_file_of, read_file_of};
ghost use Rattle.form.specs.Reading.{read_of};
ghost use Rattle.form.specs.Writing.{write_of};
ghost use Rattle.ofb.specs.Interface.{told_of, told_written_of, told_judged_of, told_image_of, handed, outcome_in_c, writing_in_c, part_in_c};

use book_choosing::Chosen;
use book_judging::Judgement;
use figures::{Answer, Written};

// An answer, as C has it.
#[repr(C)]
#[derive(Clone, Copy)]
pub struct OfbAnswer {
    pub number: u16,
    pub line: u16,
    pub written: u32,
}

// A judgement, as C has it: the number and the line, and of what is unknown there how many entries of its section stand below it, whether it is
// there (0 or 1), and the places at which it first differs from the last entry below and from the first above.
#[repr(C)]
#[derive(Clone, Copy)]
pub struct OfbJudged {
    pub number: u16,
    pub line: u16,
    pub below: u16,
    pub there: u16,
    pub place_below: u16,
    pub place_above: u16,
}

// What choosing answers, as C has it: the number, the line, and the image, or 0.
#[repr(C)]
#[derive(Clone, Copy)]
pub struct OfbImage {
    pub number: u16,
    pub line: u16,
    pub image: u32,
}

// A part of an order, as C has it: the word at which it starts, and how many words it has.
#[repr(C)]
#[derive(Clone, Copy)]
pub struct OfbPart {
    pub start: u32,
    pub words: u32,
}

// An answer in C's numbers; nothing was written to an output that is not a book.
fn told(answer: Answer) -> OfbAnswer
    requires { answer.line < 2 ^ 16 }
    ensures { result ≡ told_of answer }
{
    OfbAnswer {
        number: answer.number,
        line: answer.line as u16,
        written: 0,
    }
}

// An answer in C's numbers, with how many words or bytes were written.
fn told_written(answer: Written) -> OfbAnswer
    requires { (answer.line < 2 ^ 16) × (answer.count < 2 ^ 32) }
    ensures { result ≡ told_written_of answer }
{
    OfbAnswer {
        number: answer.number,
        line: answer.line as u16,
        written: answer.count as u32,
    }
}

// A judgement in C's numbers.
fn told_judged(judged: Judgement) -> OfbJudged
    requires { (judged.answer.line < 2 ^ 16) × Small (2 ^ 16) judged.near }
    ensures { result ≡ told_judged_of judged }
{
    let answer = judged.answer;
    let near = judged.near;
    OfbJudged {
        number: answer.number,
        line: answer.line as u16,
        below: near.below as u16,
        there: near.there as u16,
        place_below: near.low as u16,
        place_above: near.high as u16,
    }
}

// What choosing answers, in C's numbers.
fn told_image(chosen: Chosen) -> OfbImage
    requires { chosen.line < 2 ^ 16 }
    ensures { result ≡ told_image_of chosen }
{
    OfbImage {
        number: chosen.number,
        line: chosen.line as u16,
        image: chosen.image as u32,
    }
}

// Opens an empty book: `book::open`.
pub fn ofb_open(book: &mut [u16], k: u16) -> OfbAnswer
    ensures { handed result book.new ≡ outcome_in_c (open_of book.old k) }
{
    let answer = book::open(book, k);
    told(answer)
}

// Teaches an order: `book_teach::teach`.
pub fn ofb_teach(book: &mut [u16], order: &[u16]) -> OfbAnswer
    ensures { handed result book.new ≡ outcome_in_c (teach_of book.old order.now) }
{
    let answer = book_teach::teach(book, order);
    told(answer)
}

// Withdraws an order: `book_teach::withdraw`.
pub fn ofb_withdraw(book: &mut [u16], order: &[u16]) -> OfbAnswer
    ensures { handed result book.new ≡ outcome_in_c (withdraw_of book.old order.now) }
{
    let answer = book_teach::withdraw(book, order);
    told(answer)
}

// Joins another book to a book: `book_join::join`.
pub fn ofb_join(book: &mut [u16], other: &[u16]) -> OfbAnswer
    ensures { handed result book.new ≡ outcome_in_c (join_of book.old other.now) }
{
    let answer = book_join::join(book, other);
    told(answer)
}

// Judges an order by a book: `book_judge::judge`.
pub fn ofb_judge(book: &[u16], order: &[u16]) -> OfbJudged
    ensures { result ≡ told_judged_of (judgement_of book.now order.now) }
{
    let judged = book_judge::judge(book, order);
    told_judged(judged)
}

// Chooses the image to build an order with, by a book and a rule list: `book_choose::choose`.
pub fn ofb_choose(book: &[u16], order: &[u16], rules: &[u16]) -> OfbImage
    ensures { result ≡ told_image_of (choose_of book.now order.now rules.now) }
{
    let chosen = book_choose::choose(book, order, rules);
    told_image(chosen)
}

// Whether a book agrees with itself: `book_check::check`.
pub fn ofb_check(book: &[u16]) -> OfbAnswer
    ensures { result ≡ told_of (agree_of book.now) }
{
    let answer = book_check::check(book);
    told(answer)
}

// Writes a book's file: `book_file::write`.
pub fn ofb_write_file(book: &[u16], out: &mut [u8]) -> OfbAnswer
    ensures { handed result out.new ≡ writing_in_c (write_file_of book.now out.old) }
{
    let answer = book_file::write(book, out);
    told_written(answer)
}

// Reads a book's file: `book_file::read`.
pub fn ofb_read_file(file: &[u8], book: &mut [u16]) -> OfbAnswer
    ensures { handed result book.new ≡ outcome_in_c (read_file_of file.now book.old) }
{
    let answer = book_file::read(file, book);
    told(answer)
}

// Reads the text of a form: `form_read::read`.
pub fn ofb_read_text(text: &[u8], out: &mut [u16]) -> OfbAnswer
    ensures { handed result out.new ≡ writing_in_c (read_of text.now out.old) }
{
    let answer = form_read::read(text, out);
    told_written(answer)
}

// Writes the text of an order: `form_write::write`.
pub fn ofb_write_text(order: &[u16], out: &mut [u8]) -> OfbAnswer
    ensures { handed result out.new ≡ writing_in_c (write_of order.now out.old) }
{
    let answer = form_write::write(order, out);
    told_written(answer)
}

// The place of the subtree of a line: `order_cuts::subtree`.
pub fn ofb_subtree(order: &[u16], line: usize) -> OfbPart
    ensures { result ≡ part_in_c (subtree_of order.now line) }
{
    let words = order_cuts::subtree(order, line).len();
    if words == 0 {
        return OfbPart { start: 0, words: 0 };
    }
    let start = (line - 1) * 2;
    OfbPart {
        start: start as u32,
        words: words as u32,
    }
}
