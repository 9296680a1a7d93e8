// Why a call refuses: one case for each of the numbers of 01 and 02 but 0 and the verdicts 20 to 22. Assumes nothing.
ghost use Rattle.std.specs.Prelude.{◌≡◌};
ghost use Rattle.figures.specs.Refusals.{refusal_number, number_told, count_told};
ghost use Rattle.figures.specs.Answers.{answered, wrote};

use crate::{Answer, Written, answered, numbers, wrote};

// Why a call refuses, named as its number is.
#[derive(Clone, Copy)]
pub enum Refusal {
    NoOrder,
    TooLarge,
    KOutside,
    BookSize,
    NotInForm,
    NoRoom,
    TooMany,
    NotTaught,
    NotAgreeing,
    NoForm,
    ShortOutput,
    NoMark,
    OtherVersion,
    NoStoredBook,
    OtherK,
    NoImage,
    TwoImages,
    NoRules,
}

impl Refusal {
    // 01's number for a refusal.
    pub fn number(self) -> u16
        ensures { result ≡ refusal_number self }
    {
        match self {
            Refusal::NoOrder => numbers::NO_ORDER,
            Refusal::TooLarge => numbers::TOO_LARGE,
            Refusal::KOutside => numbers::K_OUTSIDE,
            Refusal::BookSize => numbers::BOOK_SIZE,
            Refusal::NotInForm => numbers::NOT_IN_FORM,
            Refusal::NoRoom => numbers::NO_ROOM,
            Refusal::TooMany => numbers::TOO_MANY,
            Refusal::NotTaught => numbers::NOT_TAUGHT,
            Refusal::NotAgreeing => numbers::NOT_AGREEING,
            Refusal::NoForm => numbers::NO_FORM,
            Refusal::ShortOutput => numbers::SHORT_OUTPUT,
            Refusal::NoMark => numbers::NO_MARK,
            Refusal::OtherVersion => numbers::OTHER_VERSION,
            Refusal::NoStoredBook => numbers::NO_STORED_BOOK,
            Refusal::OtherK => numbers::OTHER_K,
            Refusal::NoImage => numbers::NO_IMAGE,
            Refusal::TwoImages => numbers::TWO_IMAGES,
            Refusal::NoRules => numbers::NO_RULES,
        }
    }
}

// The answer of a call that was done or refused; a refusal has line 0.
impl From<Result<(), Refusal>> for Answer {
    ghost from_gives = { λ outcome a. a ≡ answered (number_told outcome) };

    fn from(outcome: Result<(), Refusal>) -> Answer {
        match outcome {
            Ok(()) => answered(numbers::DONE),
            Err(refusal) => answered(refusal.number()),
        }
    }
}

// The answer of a call that wrote so many words or bytes, or was refused and wrote none.
impl From<Result<usize, Refusal>> for Written {
    ghost from_gives = { λ outcome a. a ≡ wrote (number_told outcome) (count_told outcome) };

    fn from(outcome: Result<usize, Refusal>) -> Written {
        match outcome {
            Ok(count) => wrote(numbers::DONE, count),
            Err(refusal) => wrote(refusal.number(), 0),
        }
    }
}
