// The steps of the desk: the opening, and one for each form that is handed in, with the line that is printed for each. Assumes nothing.
#![tactic(auto)]

ghost use Rattle.std.specs.Prelude.{◌≡◌};
ghost use Rattle.desk_step.specs.Steps.{stepping, begin_of, step_of};

use desk_call::used_words;
use desk_line::REPLY_ROOM;

// What a step took of the input, and how many bytes its line has.
#[derive(Clone, Copy)]
pub struct Printed {
    pub taken: usize,
    pub count: usize,
}

// Opens the book by the first line of the input and gives the line for it in `out`; by a fault, its line alone, and all of the input is taken. Does
// nothing where `out` is shorter than any line may be.
pub fn begin(input: &[u8], book: &mut [u16], out: &mut [u8]) -> Printed
    ensures { stepping result book.new out.new ≡ begin_of input.now book.old out.old }
{
    if out.len() < REPLY_ROOM {
        return Printed { taken: 0, count: 0 };
    }
    match desk_input::opening(input) {
        Err(answer) => {
            let count = desk_line::put_reply(out, desk_input::OPENING_LETTER, answer, 0);
            Printed {
                taken: input.len(),
                count,
            }
        }
        Ok(k) => {
            let answer = book::open(book, k);
            let words = used_words(book);
            let count = desk_line::put_reply(out, desk_input::OPENING_LETTER, answer, words);
            Printed {
                taken: desk_input::FIRST_LINE,
                count,
            }
        }
    }
}

// Makes the call at the front of what is left of the input and gives its line in `out`. Does nothing where no letter line stands there, or where
// `out` is shorter than any line may be.
pub fn step(left: &[u8], book: &mut [u16], out: &mut [u8]) -> Printed
    ensures { stepping result book.new out.new ≡ step_of left.now book.old out.old }
{
    if out.len() < REPLY_ROOM {
        return Printed { taken: 0, count: 0 };
    }
    let Some(letter) = desk_input::letter_at(left, 0) else {
        return Printed { taken: 0, count: 0 };
    };
    let end = desk_input::form_end(left, desk_input::LETTER_LINE);
    let answer = desk_call::call(letter, &left[desk_input::LETTER_LINE..end], book);
    let used = used_words(book);
    let count = desk_line::put_reply(out, letter.byte(), answer, used);
    Printed { taken: end, count }
}
