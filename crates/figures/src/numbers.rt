// The numbers of 01, "Numbers the desk hears", and of 02, named as the definitions of `specs/Numbers.antt` name them.

// done
pub const DONE: u16 = 0;

// the words are no order
pub const NO_ORDER: u16 = 1;

// the order or the text is too long or too deep
pub const TOO_LARGE: u16 = 2;

// k is outside 2 to 6
pub const K_OUTSIDE: u16 = 3;

// the book's slice is too short or too long
pub const BOOK_SIZE: u16 = 4;

// the book is not in form
pub const NOT_IN_FORM: u16 = 5;

// the result needs more words than the book's slice has
pub const NO_ROOM: u16 = 6;

// live teachings or a touched count would pass 65,535
pub const TOO_MANY: u16 = 7;

// the order has no entry in T
pub const NOT_TAUGHT: u16 = 8;

// withdrawing: a part of the order is missing from R, L or P; checking, writing or reading a book: it does not agree with itself
pub const NOT_AGREEING: u16 = 9;

// the text is no form
pub const NO_FORM: u16 = 10;

// the lent output is too short
pub const SHORT_OUTPUT: u16 = 11;

// stored: under 5 bytes, or another mark
pub const NO_MARK: u16 = 12;

// stored: the version is not 1
pub const OTHER_VERSION: u16 = 13;

// stored: the rest is not the used words of a book in form
pub const NO_STORED_BOOK: u16 = 14;

// joined: the two books look differently deep
pub const OTHER_K: u16 = 15;

// judged: the order's top is not in the book, though the part of every line is
pub const TOP_UNKNOWN: u16 = 20;

// judged: the low part of the line to fix is not in the book
pub const LOW_UNKNOWN: u16 = 21;

// judged: the middle part of the line to fix is not in the book
pub const MIDDLE_UNKNOWN: u16 = 22;

// chosen: no rule fits the order
pub const NO_IMAGE: u16 = 30;

// chosen: two rules that fit the order name different images
pub const TWO_IMAGES: u16 = 31;

// chosen: the words are no rule list, or a rule's tree is deeper than k-1
pub const NO_RULES: u16 = 32;
