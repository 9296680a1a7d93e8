// The figures of 01 for orders, books and the desk, and of 02 for rule lists, named as the definitions of `specs/Limits.antt` name them.

// "an option code 1 to 9999, then its number of children 0 to 8"
pub const LEAST_CODE: u16 = 1;

pub const GREATEST_CODE: u16 = 9999;

pub const MOST_CHILDREN: u16 = 8;

// "1 to 64 nodes", of two words each. What is gone over, cut or read stands in an array of the most that it can be, on the stack: no call of the
// library asks for memory, since there is no number for a call that gets none.
pub const MOST_NODES: usize = 64;

pub const MOST_WORDS: usize = 2 * MOST_NODES;

// "an order's depth is at most 12"
pub const GREATEST_DEPTH: usize = 12;

// The book's head: words 0 to 6
pub const HEAD_WORDS: usize = 7;

// "Word 0: k. Word 1: words used. Word 2: live teachings"
pub const K_WORD: usize = 0;

pub const USED_WORD: usize = 1;

pub const LIVE_WORD: usize = 2;

// "Words 3 to 6: numbers of entries in T, R, L, P"
pub const TAUGHT_WORD: usize = 3;

pub const TOPS_WORD: usize = 4;

pub const LOWS_WORD: usize = 5;

pub const MIDDLES_WORD: usize = 6;

// "A lent slice of 7 to 16,384 words"
pub const MOST_BOOK_WORDS: usize = 16384;

// "count (1 to 65,535)"
pub const LEAST_COUNT: usize = 1;

// "to 65,535", and "live teachings, at most 65,535"
pub const GREATEST_COUNT: u16 = 65535;

// "standard input, at most 32,768 bytes, with a book of 8,192 words"
pub const MOST_INPUT: usize = 32768;

pub const DESK_BOOK_WORDS: usize = 8192;

// "the number of rules, 0 to 64"
pub const MOST_RULES: u16 = 64;

// "an image number 1 to 65,535"
pub const LEAST_IMAGE: u16 = 1;
