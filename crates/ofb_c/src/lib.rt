// The symbols of libofb.a: each function of include/ofb.h calls the function of `ofb` of its name, and promises what that one promises, by the same
// clause. It asks nothing, and assumes nothing.
#![tactic(auto)]

ghost use Rattle.std.specs.Prelude.{◌≡◌};
ghost use Rattle.order.specs.Answers.{subtree_of};
ghost use Rattle.book.specs.Opening.{open_of};
ghost use Rattle.book_judging.specs.Expecting.{judgement_of};
ghost use Rattle.book_choosing.specs.Choosing.{choose_of};
ghost use Rattle.book_teaching.specs.Calls.{teach_of, withdraw_of};
ghost use Rattle.book_joining.specs.Joining.{join_of};
ghost use Rattle.book.specs.Checking.{agree_of};
ghost use Rattle.book_filing.specs.Files.{write_file_of, read_file_of};
ghost use Rattle.form.specs.Reading.{read_of};
ghost use Rattle.form.specs.Writing.{write_of};
ghost use Rattle.ofb.specs.Interface.{told_of, told_judged_of, told_image_of, handed, outcome_in_c, writing_in_c, part_in_c};

use ofb::{OfbAnswer, OfbImage, OfbJudged, OfbPart};

// `ofb::ofb_open` for C.
#[unsafe(no_mangle)]
pub extern "C" fn ofb_open(book: &mut [u16], k: u16) -> OfbAnswer
    ensures { handed result book.new ≡ outcome_in_c (open_of book.old k) }
{
    ofb::ofb_open(book, k)
}

// `ofb::ofb_teach` for C.
#[unsafe(no_mangle)]
pub extern "C" fn ofb_teach(book: &mut [u16], order: &[u16]) -> OfbAnswer
    ensures { handed result book.new ≡ outcome_in_c (teach_of book.old order.now) }
{
    ofb::ofb_teach(book, order)
}

// `ofb::ofb_withdraw` for C.
#[unsafe(no_mangle)]
pub extern "C" fn ofb_withdraw(book: &mut [u16], order: &[u16]) -> OfbAnswer
    ensures { handed result book.new ≡ outcome_in_c (withdraw_of book.old order.now) }
{
    ofb::ofb_withdraw(book, order)
}

// `ofb::ofb_join` for C.
#[unsafe(no_mangle)]
pub extern "C" fn ofb_join(book: &mut [u16], other: &[u16]) -> OfbAnswer
    ensures { handed result book.new ≡ outcome_in_c (join_of book.old other.now) }
{
    ofb::ofb_join(book, other)
}

// `ofb::ofb_judge` for C.
#[unsafe(no_mangle)]
pub extern "C" fn ofb_judge(book: &[u16], order: &[u16]) -> OfbJudged
    ensures { result ≡ told_judged_of (judgement_of book.now order.now) }
{
    ofb::ofb_judge(book, order)
}

// `ofb::ofb_choose` for C.
#[unsafe(no_mangle)]
pub extern "C" fn ofb_choose(book: &[u16], order: &[u16], rules: &[u16]) -> OfbImage
    ensures { result ≡ told_image_of (choose_of book.now order.now rules.now) }
{
    ofb::ofb_choose(book, order, rules)
}

// `ofb::ofb_check` for C.
#[unsafe(no_mangle)]
pub extern "C" fn ofb_check(book: &[u16]) -> OfbAnswer
    ensures { result ≡ told_of (agree_of book.now) }
{
    ofb::ofb_check(book)
}

// `ofb::ofb_write_file` for C.
#[unsafe(no_mangle)]
pub extern "C" fn ofb_write_file(book: &[u16], out: &mut [u8]) -> OfbAnswer
    ensures { handed result out.new ≡ writing_in_c (write_file_of book.now out.old) }
{
    ofb::ofb_write_file(book, out)
}

// `ofb::ofb_read_file` for C.
#[unsafe(no_mangle)]
pub extern "C" fn ofb_read_file(file: &[u8], book: &mut [u16]) -> OfbAnswer
    ensures { handed result book.new ≡ outcome_in_c (read_file_of file.now book.old) }
{
    ofb::ofb_read_file(file, book)
}

// `ofb::ofb_read_text` for C.
#[unsafe(no_mangle)]
pub extern "C" fn ofb_read_text(text: &[u8], out: &mut [u16]) -> OfbAnswer
    ensures { handed result out.new ≡ writing_in_c (read_of text.now out.old) }
{
    ofb::ofb_read_text(text, out)
}

// `ofb::ofb_write_text` for C.
#[unsafe(no_mangle)]
pub extern "C" fn ofb_write_text(order: &[u16], out: &mut [u8]) -> OfbAnswer
    ensures { handed result out.new ≡ writing_in_c (write_of order.now out.old) }
{
    ofb::ofb_write_text(order, out)
}

// `ofb::ofb_subtree` for C.
#[unsafe(no_mangle)]
pub extern "C" fn ofb_subtree(order: &[u16], line: usize) -> OfbPart
    ensures { result ≡ part_in_c (subtree_of order.now line) }
{
    ofb::ofb_subtree(order, line)
}
