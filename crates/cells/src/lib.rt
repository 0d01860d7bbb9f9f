// The program as a row of 16-bit cells: definitions, and the first cells of what stands in a row.
#![tactic(auto)]

ghost use Rattle.std.specs.Prelude.{◌≡◌, get_or};

// The end of a list of actions, an exit, and a cycle.
pub const END: u16 = 0;

pub const EXIT: u16 = 1;

pub const CYCLE: u16 = 2;

pub const MATCH: u16 = 3;

pub const ANY: u16 = 4;

pub const EMIT: u16 = 5;

pub const ERROR: u16 = 6;

pub const BY_TOKEN: u16 = 7;

pub const CALL: u16 = 8;

pub const BACK: u16 = 9;

pub const GIVE: u16 = 10;

pub const BY_RULE: u16 = 11;

// No otherwise, an otherwise, and no otherwise of a choice by token.
pub const NO_OTHERWISE: u16 = 12;

pub const OTHERWISE: u16 = 13;

pub const NO_TOKEN: u16 = 14;

// The first number that is none of these.
pub const PAST: u16 = 15;

// An alternative with j labels is this and j more.
pub const ALTERNATIVE: u16 = 64;

// Taken off such a cell it leaves the cells before the alternative's actions: itself and its labels.
pub const PREFIX: u16 = 63;

// The operations, each sort from its first number on.
pub const UPDATE: u16 = base::UPDATE;

pub const UPDATE_WITH: u16 = base::UPDATE_WITH;

pub const ASK: u16 = base::ASK;

pub const ASK_WITH: u16 = base::ASK_WITH;

// The sorts of rules: a procedure rule and a choice rule.
pub const PROCEDURE_RULE: u8 = 0;

pub const CHOICE_RULE: u8 = 1;

// The room for a program whose table fits.
pub const CELLS: usize = 4224;

// The sort of rule r, a procedure rule past the last.
pub fn sort_at(sorts: &[u8], r: usize) -> u8
    ensures { result ≡ get_or sorts.now r 0 }
{
    sorts.get(r).copied().unwrap_or(PROCEDURE_RULE)
}
