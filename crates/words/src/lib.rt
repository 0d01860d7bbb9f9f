// From bytes to words: definitions, and the kinds of words. A symbol's kind is its byte.
#![tactic(auto)]

// A byte or quote that makes no word, and the end of the text.
pub const BAD: u16 = 0;

pub const LAST: u16 = 1;

// The kinds below it have no text.
pub const FIRST_WORD: u16 = LAST + 1;

pub const HASH: u16 = 35;

pub const OPENING: u16 = 40;

pub const CLOSING: u16 = 41;

pub const STAR: u16 = 42;

pub const COMMA: u16 = 44;

pub const POINT: u16 = 46;

pub const COLON: u16 = 58;

pub const SEMICOLON: u16 = 59;

pub const EQUALS: u16 = 61;

pub const GREATER: u16 = 62;

pub const QUESTION: u16 = 63;

pub const AT: u16 = 64;

pub const IF: u16 = 91;

pub const FI: u16 = 93;

pub const CARET: u16 = 94;

pub const DO: u16 = 123;

pub const BAR: u16 = 124;

pub const OD: u16 = 125;

// `>>`
pub const TWICE: u16 = 256;

pub const NAME: u16 = 257;

pub const NUMBER: u16 = 258;

pub const STRING: u16 = 259;

pub const INPUT: u16 = 260;

pub const OUTPUT: u16 = 261;

pub const ERROR: u16 = 262;

pub const TYPE: u16 = 263;

pub const MECHANISM: u16 = 264;

pub const RULES: u16 = 265;

pub const END: u16 = 266;
