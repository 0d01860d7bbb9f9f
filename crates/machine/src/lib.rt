// The table machine: its definitions, the constant table of instruction lengths, and words of a byte buffer.
#![tactic(auto)]

ghost use Rattle.std.specs.Prelude.{◌≡◌, ◌<◌, get_or};
ghost use Rattle.machine.specs.Bytes.{count, words_of};
ghost use Rattle.machine.specs.Lengths.{length_of};

// The instructions by their numbers.
pub const JUMP_FORWARD: u16 = 1;

pub const JUMP_BACK: u16 = 2;

pub const INPUT: u16 = 3;

pub const INPUT_ANY: u16 = 4;

pub const EMIT: u16 = 5;

pub const ERROR: u16 = 6;

pub const INPUT_CHOICE: u16 = 7;

pub const CALL: u16 = 8;

pub const RETURN: u16 = 9;

pub const SET_RESULT: u16 = 10;

pub const CHOICE: u16 = 11;

pub const END_CHOICE: u16 = 12;

pub const SET_PARAMETER: u16 = 13;

// The operations, each sort from its first number on, and the first number past them.
pub const UPDATE: u16 = base::UPDATE;

pub const UPDATE_WITH: u16 = base::UPDATE_WITH;

pub const ASK: u16 = base::ASK;

pub const ASK_WITH: u16 = base::ASK_WITH;

pub const PAST_OPERATIONS: u16 = 1280;

// The last instruction that is no operation, the first operation and the last one, as indices are.
pub const LAST_PLAIN: usize = SET_PARAMETER as usize;

pub const FIRST_OPERATION: usize = UPDATE as usize;

pub const LAST_OPERATION: usize = PAST_OPERATIONS as usize - 1;

// The kinds of events, and the words that an event takes.
pub const OUTPUT_EVENT: u16 = 1;

pub const ERROR_EVENT: u16 = 2;

pub const OPERATION_EVENT: u16 = 3;

pub const REPAIR_EVENT: u16 = 4;

pub const EVENT_WORDS: usize = 3;

// The lengths of instructions 1 to 13, in words, each at its number less one.
pub const LENGTHS: [usize; LAST_PLAIN] = [2, 2, 2, 1, 2, 2, 2, 2, 1, 2, 2, 1, 2];

// The words that an instruction takes, by its number: 0 if no instruction has it.
pub fn instruction_length(number: u16) -> usize
    ensures { result ≡ length_of number }
{
    match number {
        JUMP_FORWARD..=SET_PARAMETER => LENGTHS[usize::from(number) - 1],
        UPDATE..PAST_OPERATIONS => 1,
        _ => 0,
    }
}

// The whole words of s: an odd last byte counts for nothing.
pub fn count_words(s: &[u8]) -> usize
    ensures { result ≡ count s.now }
{
    s.len() / 2
}

// The word at index i, from 0, high byte first: 0 past the last whole word.
pub fn word(s: &[u8], i: usize) -> u16
    ensures { result ≡ get_or (words_of s.now) i 0 }
{
    if i < count_words(s) {
        u16::from_be_bytes([s[2 * i], s[2 * i + 1]])
    } else {
        0
    }
}
