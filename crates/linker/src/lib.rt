// Objects linked: what the cells of a rule tell, and where a name's rule stands among all rules.
#![tactic(auto)]

ghost use Rattle.std.specs.Prelude.{◌≡◌, ◌+◌, ◌<◌};
ghost use Rattle.base.specs.Common.{same};
ghost use Rattle.linker.specs.Close as close;
ghost use Rattle.linker.specs.Place.{letters, text_at, texts_at, place_of};
ghost use Rattle.machine.specs.Bytes.{words_of};

// A name in words: where it stands in its text, its length, its bytes, a word each.
pub const NAME_SIZE: usize = 1;

pub const NAME_BYTES: usize = 2;

const PAST: usize = cells::PAST as usize;

// How many cells stand behind a first cell and begin nothing themselves, by the first cell.
const BEHIND: [u8; PAST] = [0, 0, 0, 1, 0, 1, 1, 0, 1, 0, 1, 1, 0, 0, 0];

pub fn count_behind(x: u16) -> usize
    ensures { result ≡ close.behind x }
{
    if x < cells::PAST {
        usize::from(BEHIND[usize::from(x)])
    } else if x < cells::ALTERNATIVE {
        0
    } else if x < cells::UPDATE {
        usize::from(x - cells::ALTERNATIVE)
    } else if x < cells::UPDATE_WITH {
        0
    } else if x < cells::ASK {
        1
    } else if x < cells::ASK_WITH {
        0
    } else {
        1
    }
}

// The operand is the mark of a call.
pub fn is_call(first: u16) -> bool
    ensures { result ≡ close.is_call first }
{
    first == cells::CALL || first == cells::BY_RULE
}

// A place inside the words or at their end: past the end every name is empty.
fn within(words: &[u8], p: usize) -> usize
    ensures { (text_at (words_of words.now) result ≡ text_at (words_of words.now) p) × (result < 9223372036854775808) }
{
    p.min(objects::total(words))
}

// The n words from p and from q on are the same.
fn same_words(words: &[u8], p: usize, q: usize, n: usize) -> bool
    requires { (p + n < 18446744073709551616) × (q + n < 18446744073709551616) }
    ensures { result ≡ same (letters (words_of words.now) p n) (letters (words_of words.now) q n) }
{
    for i in 0..n {
        if machine::word(words, p + i) != machine::word(words, q + i) {
            return false;
        }
    }
    true
}

// The names at p and at q are the same.
fn same_name(words: &[u8], p: usize, q: usize) -> bool
    requires { (p < 9223372036854775808) × (q < 9223372036854775808) }
    ensures { result ≡ same (text_at (words_of words.now) p) (text_at (words_of words.now) q) }
{
    let n = machine::word(words, p + NAME_SIZE);
    n == machine::word(words, q + NAME_SIZE)
        && same_words(words, p + NAME_BYTES, q + NAME_BYTES, usize::from(n))
}

// The number of the first rule with the name at p, the rules' names standing at `names`; where none has it, the number of rules.
pub fn place_of(words: &[u8], names: &[usize], p: usize) -> usize
    requires { p < 9223372036854775808 }
    ensures { result ≡ place_of (text_at (words_of words.now) p) (texts_at (words_of words.now) names.now) }
{
    for (i, name) in names.iter().enumerate() {
        if same_name(words, p, within(words, *name)) {
            return i;
        }
    }
    names.len()
}
