// The kinds of cases, and their names. Assumes nothing.

// What is done with what stands behind the name.
#[derive(Clone, Copy)]
pub enum Kind {
    // Of orders: see `orders`.
    Check,
    K,
    Subtree,
    Cut,
    Part,
    // Of forms: see `forms`.
    Read,
    Back,
    Write,
    There,
    // Of books: see `books`.
    Form,
    Open,
    Lay,
    Show,
    Teach,
    Withdraw,
    Ask,
    Choose,
    Agrees,
    Join,
    // Of stored books, and of two books: see `stored`.
    File,
    More,
    Put,
    Store,
    Load,
    Front,
    With,
    Start,
    Trip,
    Again,
    Swap,
}

impl Kind {
    // The kind of that name, if there is one.
    pub fn from_name(name: &[u8]) -> Option<Kind> {
        let kind = match name {
            b"check" => Kind::Check,
            b"k" => Kind::K,
            b"subtree" => Kind::Subtree,
            b"cut" => Kind::Cut,
            b"part" => Kind::Part,
            b"read" => Kind::Read,
            b"back" => Kind::Back,
            b"write" => Kind::Write,
            b"there" => Kind::There,
            b"form" => Kind::Form,
            b"open" => Kind::Open,
            b"lay" => Kind::Lay,
            b"show" => Kind::Show,
            b"teach" => Kind::Teach,
            b"withdraw" => Kind::Withdraw,
            b"ask" => Kind::Ask,
            b"choose" => Kind::Choose,
            b"agrees" => Kind::Agrees,
            b"join" => Kind::Join,
            b"file" => Kind::File,
            b"more" => Kind::More,
            b"put" => Kind::Put,
            b"store" => Kind::Store,
            b"load" => Kind::Load,
            b"front" => Kind::Front,
            b"with" => Kind::With,
            b"start" => Kind::Start,
            b"trip" => Kind::Trip,
            b"again" => Kind::Again,
            b"swap" => Kind::Swap,
            _ => return None,
        };
        Some(kind)
    }
}
