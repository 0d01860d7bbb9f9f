// The pairs of section and operand rule that a part uses, in the order of first use, one number each. They stand in the rows behind the index, as
// those of a text do (crate maker), and the place of each first use stands in a slice of its own.
#![tactic(auto)]

ghost use Rattle.std.specs.Prelude.{◌≡◌, ◌+◌, ◌*◌, ◌≤◌, length, get_or};
ghost use Rattle.partpairs.specs.Pairing.{UseRead, UseDone, WordDone, PairsFrom, PairsDone};
ghost use Rattle.symbols.specs.Index.{Kept};

use scanner::WordAt;
use symbols::PAIRS;

// A use takes four words, so four bytes or more, and a part has 32,768 bytes at most.
pub const PART_PAIRS: usize = 8192;

// Rows with room for so many pairs.
pub const PART_ROWS: usize = symbols::PAIR_SECTION + symbols::PAIR * PART_PAIRS;

// The words of a use: `^`, the section's name, the operand rule's name.
#[derive(Clone, Copy)]
pub struct UseWords {
    pub sign: WordAt,
    pub section: WordAt,
    pub operand: WordAt,
}

// The use whose `^` is the next word at the place `at`.
pub fn read_words(text: &[u8], at: usize) -> UseWords
    ensures { UseRead text.now at result }
{
    let sign = scanner::next_word(text, at);
    let section = scanner::next_word(text, sign.next);
    let call = scanner::next_word(text, section.next);
    let operand = scanner::next_word(text, call.next);
    UseWords {
        sign,
        section,
        operand,
    }
}

// The use whose `^` is the next word at the place `at` and stands before the place `next`: its pair is put behind the others, if it is new. False where
// the use is not in order, or there is no room.
fn take_use(
    text: &[u8],
    rows: &mut [u16],
    signs: &mut [u16],
    n: usize,
    own: usize,
    at: usize,
    next: usize,
) -> bool
    requires { (at ≤ 65535) × (length rows.old ≡ 30209) × (length signs.old ≡ 8192) × Kept text.now rows.old n × (own ≤ 512) × (get_or rows.old 5632 0 ≤ 8192) }
    ensures { UseDone text.now rows.old signs.old n own at next rows.new signs.new result }
{
    let Some(u) = maker::read_use(text, rows, n, next) else {
        return false;
    };
    if maker::look_pair(rows, u.section, u.operand).is_some() {
        return true;
    }
    let k = base::number(rows, PAIRS);
    if PART_PAIRS <= k {
        return false;
    }
    maker::add_pair(rows, k, u.section, u.operand, own + k);
    signs[k] = at as u16;
    true
}

fn take_word(
    text: &[u8],
    rows: &mut [u16],
    signs: &mut [u16],
    n: usize,
    own: usize,
    at: usize,
    w: WordAt,
) -> bool
    requires { (at ≤ 65535) × (length rows.old ≡ 30209) × (length signs.old ≡ 8192) × Kept text.now rows.old n × (own ≤ 512) × (get_or rows.old 5632 0 ≤ 8192) }
    ensures { WordDone text.now rows.old signs.old n own at w rows.new signs.new result }
{
    if w.kind == words::CARET {
        take_use(text, rows, signs, n, own, at, w.next)
    } else {
        true
    }
}

// The words to `end`, or to the end of the text, or to a use that is not taken.
fn take_words(text: &[u8], rows: &mut [u16], signs: &mut [u16], n: usize, own: usize, at: usize)
    requires { (at ≤ length text.now) × (length text.now ≤ 65535) × (length rows.old ≡ 30209) × (length signs.old ≡ 8192) × Kept text.now rows.old n × (own ≤ 512) × (get_or rows.old 5632 0 ≤ 8192) }
    ensures { PairsFrom text.now rows.old signs.old n own at rows.new signs.new }
{
    let mut i = at;
    // no range: a word says where the next begins
    loop {
        let w = scanner::next_word(text, i);
        if w.kind < words::FIRST_WORD || w.kind == words::END {
            return;
        }
        if !take_word(text, rows, signs, n, own, i, w) {
            return;
        }
        i = w.next;
    }
}

// The pairs of the rules from the place `at` on, numbered from `own` on: how many there are. A use that is not in order ends them.
pub fn pairs(
    text: &[u8],
    rows: &mut [u16],
    signs: &mut [u16],
    n: usize,
    own: usize,
    at: usize,
) -> usize
    requires { (at ≤ length text.now) × (length text.now ≤ 65535) × (length text.now ≤ at + 32768) × (length rows.old ≡ 30209) × (length signs.old ≡ 8192) × Kept text.now rows.old n × (own ≤ 512) }
    ensures { PairsDone text.now rows.old signs.old n own at rows.new signs.new result }
{
    rows[PAIRS] = 0;
    take_words(text, rows, signs, n, own, at);
    base::number(rows, PAIRS)
}
