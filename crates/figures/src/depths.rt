// How deep the book looks: k, with its least and its greatest. Assumes nothing.
ghost use Rattle.std.specs.Prelude.{◌≡◌, ◌-◌};
ghost use Rattle.figures.specs.Answers.{depth_of};

// A k. The field is the module's own: other code has a `Depth` from the checked constructor alone.
#[derive(Clone, Copy)]
pub struct Depth {
    k: u16,
}

impl Depth {
    // "k is 2 to 6"
    pub const LEAST: u16 = 2;

    pub const GREATEST: u16 = 6;

    // The depth of that k, if it is 2 to 6.
    pub fn new(k: u16) -> Option<Depth>
        ensures { result ≡ depth_of k }
    {
        (Self::LEAST..=Self::GREATEST)
            .contains(&k)
            .then_some(Self { k })
    }

    // k itself.
    pub fn value(self) -> u16
        ensures { result ≡ self.k }
    {
        self.k
    }

    // The depth of tops, and the greatest of low parts: k-2.
    pub fn of_tops(self) -> usize
        ensures { result ≡ self.k - 2 }
    {
        usize::from(self.k).saturating_sub(2)
    }

    // The depth of middle parts: k-1.
    pub fn of_middles(self) -> usize
        ensures { result ≡ self.k - 1 }
    {
        usize::from(self.k).saturating_sub(1)
    }
}
