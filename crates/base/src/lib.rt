// What every other crate shares: definitions, the numbers of the answers, the limits, and small functions on numbers.
#![tactic(auto)]

ghost use Rattle.std.specs.Prelude.{◌≡◌, ◌%◌, ◌<◌, get_or, take, drop};
ghost use Rattle.base.specs.Faults.{fault_number};

// What the processor says of a text: docs/FAULTS.md.
pub const NO_WORD: u16 = 1;

pub const NOT_ALLOWED: u16 = 2;

pub const UNDECLARED: u16 = 3;

pub const REPEATED: u16 = 4;

pub const NOT_WANTED: u16 = 5;

pub const LABEL_REPEATED: u16 = 6;

pub const NO_CYCLE: u16 = 7;

pub const WRONG_RETURN: u16 = 8;

pub const OVER_LIMIT: u16 = 9;

pub const TOO_SHORT: u16 = 20;

pub const CONTRADICTS: u16 = 45;

pub const NO_FIGURE: u16 = 47;

// Why a text is refused: docs/FAULTS.md says what each is.
#[derive(Clone, Copy, Debug, PartialEq, Eq)]
pub enum Fault {
    NoWord,
    NotAllowed,
    Undeclared,
    Repeated,
    NotWanted,
    LabelRepeated,
    NoCycle,
    WrongReturn,
    OverLimit,
    Contradicts,
}

// The number that C is told of it.
impl From<Fault> for u16 {
    ghost from_gives = { λ fault n. n ≡ fault_number fault };

    fn from(fault: Fault) -> u16 {
        match fault {
            Fault::NoWord => NO_WORD,
            Fault::NotAllowed => NOT_ALLOWED,
            Fault::Undeclared => UNDECLARED,
            Fault::Repeated => REPEATED,
            Fault::NotWanted => NOT_WANTED,
            Fault::LabelRepeated => LABEL_REPEATED,
            Fault::NoCycle => NO_CYCLE,
            Fault::WrongReturn => WRONG_RETURN,
            Fault::OverLimit => OVER_LIMIT,
            Fault::Contradicts => CONTRADICTS,
        }
    }
}

// A fault, and the place and the number of the bytes of its word.
#[derive(Clone, Copy, Debug, PartialEq, Eq)]
pub struct Refusal {
    pub fault: Fault,
    pub at: usize,
    pub len: usize,
}

// What a call of a walk says: include/sst.h.
pub const REFUSED: u16 = 21;

pub const WAITS: u16 = 22;

pub const DIFFERS: u16 = 30;

pub const MISSING: u16 = 31;

pub const UNLABELLED: u16 = 32;

pub const DEEP: u16 = 33;

pub const UNANSWERED: u16 = 34;

pub const FULL: u16 = 35;

pub const SPENT: u16 = 36;

pub const OUTSIDE: u16 = 37;

// What is said of table files, of the filter's entries, of figures and of granted operations.
pub const NOT_FORMED: u16 = 40;

pub const NOT_TAKEN: u16 = 41;

pub const CROSSED: u16 = 42;

pub const DOUBLED: u16 = 43;

pub const NOT_COVERED: u16 = 44;

pub const PAST: u16 = 46;

pub const NOT_GRANTED: u16 = 48;

// The limits of a text and of its program.
pub const TEXT_BYTES: usize = 32768;

pub const WORD_BYTES: usize = 32;

pub const NAMES: usize = 512;

pub const OPERATIONS: usize = 256;

pub const RULES: usize = 128;

pub const LABELS: usize = 64;

pub const NESTED: usize = 32;

pub const GREATEST_VALUE: usize = 65535;

pub const GREATEST_LEVEL: usize = 15;

pub const TABLE_WORDS: usize = 4096;

pub const PENDING: usize = 64;

// What bytes and words hold.
pub const BYTE_VALUES: usize = 256;

pub const WORD_VALUES: usize = 65536;

// The operations' instructions, each sort from its first number on.
pub const UPDATE: u16 = 256;

pub const UPDATE_WITH: u16 = 512;

pub const ASK: u16 = 768;

pub const ASK_WITH: u16 = 1024;

// The low word of a number.
pub fn low_word(x: u64) -> u16
    ensures { result ≡ x % 65536 }
{
    (x % 65536) as u16
}

// The cell at i of a row, 0 past its end, and the same as an index.
pub fn cell(row: &[u16], i: usize) -> u16
    ensures { result ≡ get_or row.now i 0 }
{
    row.get(i).copied().unwrap_or(0)
}

pub fn number(row: &[u16], i: usize) -> usize
    ensures { (result ≡ get_or row.now i 0) × (result < 65536) }
{
    usize::from(cell(row, i))
}

// The part of a text from `start` on, as long as `len` or to the text's end.
pub fn part<'a>(text: &'a [u8], start: usize, len: usize) -> &'a [u8]
    ensures { result.now ≡ take len (drop start text.now) }
{
    let from = start.min(text.len());
    let rest = &text[from..];
    &rest[..len.min(rest.len())]
}
