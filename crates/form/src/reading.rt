// What a line of a form is read as, and why it is refused. Assumes nothing.
ghost use Rattle.std.specs.Prelude.{◌≡◌};
ghost use Rattle.form.specs.Reading.{fault_number};

use figures::numbers;

// Why a line is refused, in the order in which the faults are looked for.
#[derive(Clone, Copy)]
pub enum Fault {
    PastLast,
    Misspelt,
    NoOption,
    LevelNotAllowed,
    TooDeep,
    NinthChild,
}

impl Fault {
    // 01's number for a fault.
    pub fn number(self) -> u16
        ensures { result ≡ fault_number self }
    {
        match self {
            Fault::PastLast => numbers::TOO_LARGE,
            Fault::Misspelt => numbers::NO_FORM,
            Fault::NoOption => numbers::NO_FORM,
            Fault::LevelNotAllowed => numbers::NO_FORM,
            Fault::TooDeep => numbers::TOO_LARGE,
            Fault::NinthChild => numbers::NO_FORM,
        }
    }
}

// What a line is read as that has no fault: a node, and the number of bytes that its line takes.
#[derive(Clone, Copy)]
pub struct Node {
    pub level: usize,
    pub code: u16,
    pub size: usize,
}
