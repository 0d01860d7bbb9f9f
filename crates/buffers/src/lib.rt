// Words and numbers of 64 bits in a lent buffer, read and written high byte first.
#![tactic(auto)]

ghost use Rattle.std.specs.Prelude.{◌≡◌, ◌+◌, ◌*◌, ◌<◌, ◌≤◌, length, drop, get_or};
ghost use Rattle.machine.specs.Bytes.{words_of};
ghost use Rattle.machine.specs.Form.{number64};
ghost use Rattle.buffers.specs.Words.{zeroed, put_word, put64};

// How many values one word has, two words, and three.
const ONE_WORD: u64 = 65536;

const TWO_WORDS: u64 = 4294967296;

const THREE_WORDS: u64 = 281474976710656;

// The words of a number.
pub const NUMBER_WORDS: usize = 4;

// The word at index i: 0 past the last whole word.
pub fn wide_word(s: &[u8], i: usize) -> u64
    ensures { (result ≡ get_or (words_of s.now) i 0) × (result < 65536) }
{
    u64::from(machine::word(s, i))
}

// The four words from index i on as one number. Word by word: `from_be_bytes` would need eight bytes, and words past the end are 0 here.
pub fn read_64(s: &[u8], i: usize) -> u64
    requires { i < 9223372036854775808 }
    ensures { result ≡ number64 (drop i (words_of s.now)) }
{
    wide_word(s, i) * THREE_WORDS
        + wide_word(s, i + 1) * TWO_WORDS
        + wide_word(s, i + 2) * ONE_WORD
        + wide_word(s, i + 3)
}

// The word x at index i.
pub fn put_word(out: &mut [u8], i: usize, x: u16)
    requires { 2 * i + 1 < length out.old }
    ensures { out.new ≡ put_word out.old i x }
{
    out[2 * i..2 * i + 2].copy_from_slice(&x.to_be_bytes());
}

// The number n as four words from index i on, the high one first.
pub fn put_64(out: &mut [u8], i: usize, n: u64)
    requires { 2 * i + 8 ≤ length out.old }
    ensures { out.new ≡ put64 out.old i n }
{
    out[2 * i..2 * i + 8].copy_from_slice(&n.to_be_bytes());
}

// The number n as number i.
pub fn put_number(out: &mut [u8], i: usize, n: u64)
    requires { 8 * i + 8 ≤ length out.old }
    ensures { out.new ≡ put64 out.old (4 * i) n }
{
    put_64(out, NUMBER_WORDS * i, n);
}

// All whole words are 0; an odd last byte is not touched.
pub fn clear_words(out: &mut [u8])
    ensures { out.new ≡ zeroed out.old }
{
    let end = out.len() / 2 * 2;
    out[..end].fill(0);
}
