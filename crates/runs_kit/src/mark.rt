// A mark of 32 bits of words: where two marks differ the words do, and where they are the same it is all but certain that the words are. Assumes
// nothing.

// How often the mark of words is counted in that of one word more.
const TIMES: u32 = 65_599;

// The mark of words, modulo 2 to the power 32: 0 where there are none, and with one word more so many times their mark and the word and 1.
pub fn of(words: &[u16]) -> u32 {
    words.iter().fold(0, |mark: u32, word| {
        mark.wrapping_mul(TIMES)
            .wrapping_add(u32::from(*word))
            .wrapping_add(1)
    })
}
