// Words as bytes, high byte first: written and read. It knows nothing of books, and assumes nothing beyond each function's `requires`.
#![tactic(auto)]

ghost use Rattle.std.specs.Prelude.{◌≡◌, ◌+◌, ◌*◌, ◌/◌, ◌%◌, ◌<◌, length, set};
ghost use Rattle.octets.specs.Octets.{bytes_of, words_of, word_at_byte};

// Writes a word as two bytes, high byte first, from byte `at` on.
pub fn put_word(out: &mut [u8], at: usize, word: u16)
    requires { at + 1 < length out.old }
    ensures { out.new ≡ set (set out.old at (word / 256)) (at + 1) (word % 256) }
{
    let [high, low] = word.to_be_bytes();
    out[at] = high;
    out[at + 1] = low;
}

// Writes words as bytes, high byte first.
pub fn put_words(words: &[u16], out: &mut [u8])
    requires { length out.old ≡ 2 * length words.now }
    ensures { out.new ≡ bytes_of words.now }
{
    for (i, word) in words.iter().enumerate() {
        put_word(out, 2 * i, *word);
    }
}

// The word whose high byte is byte `at`.
pub fn word_at(bytes: &[u8], at: usize) -> u16
    requires { at + 1 < length bytes.now }
    ensures { result ≡ word_at_byte bytes.now at }
{
    u16::from_be_bytes([bytes[at], bytes[at + 1]])
}

// Writes to `out` the words that bytes are, high byte first.
pub fn take_words(bytes: &[u8], out: &mut [u16])
    requires { length bytes.now ≡ 2 * length out.old }
    ensures { out.new ≡ words_of bytes.now }
{
    for (i, word) in out.iter_mut().enumerate() {
        *word = word_at(bytes, 2 * i);
    }
}
