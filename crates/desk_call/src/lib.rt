// One call at the desk: its form is read, and its order taught to the book, withdrawn from it or judged by it. Assumes nothing.
#![tactic(auto)]

ghost use Rattle.std.specs.Prelude.{◌≡◌, get_or};
ghost use Rattle.figures.specs.Limits.{used_word};
ghost use Rattle.book.specs.Opening.{outcome};
ghost use Rattle.desk_call.specs.Asking.{ask_of, call_of};

use desk_input::Letter;
use figures::{Answer, Written, limits, numbers};

// Word 1 of a book, which has its words used; 0 where there is no such word.
pub fn used_words(book: &[u16]) -> u16
    ensures { result ≡ get_or book.now used_word 0 }
{
    book.get(limits::USED_WORD).copied().unwrap_or(0)
}

// Makes the call of a letter with an order on the book.
fn ask(letter: Letter, book: &mut [u16], order: &[u16]) -> Answer
    ensures { outcome result book.new ≡ ask_of letter book.old order.now }
{
    match letter {
        Letter::Teach => book_teach::teach(book, order),
        Letter::Withdraw => book_teach::withdraw(book, order),
        Letter::Judge => book_judge::judge(book, order).answer,
    }
}

// Makes a call on the book: its form is read first, and a form that is refused does not reach the book.
pub fn call(letter: Letter, text: &[u8], book: &mut [u16]) -> Answer
    ensures { outcome result book.new ≡ call_of (record { letter = letter; text = text.entry.now }) book.old }
{
    let mut order = [0u16; limits::MOST_WORDS];
    let Written {
        number,
        line,
        count,
    } = form_read::read(text, &mut order);
    if number != numbers::DONE {
        return Answer { number, line };
    }
    ask(letter, book, &order[..count])
}
