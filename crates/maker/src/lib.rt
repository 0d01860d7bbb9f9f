// The uses of operators in a text that the syntax pass has accepted: each pair of section and operand rule, in the order of first use, and the
// place of the lowest rule that is made for it. They stand in the rows behind the index.
#![tactic(auto)]

ghost use Rattle.std.specs.Prelude.{◌≡◌, ℕ, ◌+◌, ◌-◌, ◌*◌, ◌<◌, ◌≤◌, eqb, ltb, length, get_or, true, ◌&&◌, ◌||◌, IfSome};
ghost use Rattle.maker.specs.Pairs.{pairs_held, look_pair, lowest_in};
ghost use Rattle.maker.specs.Pairing.{NoSection, set_three, Adds, UseRead, PlaceOf, UseDone, WordDone, PairsFrom, PairsDone};
ghost use Rattle.maker.specs.Ranks.{AnEntry, no_rank, rank_or, next_rank, RankDone, RankBound, LevelsDone};
ghost use Rattle.symbols.specs.Index.{Kept};
ghost use Rattle.symbols.specs.Rows.{answer_of};

use base::{Fault, Refusal};
use scanner::WordAt;
use symbols::{OPERATORS, PAIR, PAIR_OPERAND, PAIR_RULE, PAIR_SECTION, PAIRS, ROW, RULE, VALUE};

// An entry of a section: input token, level, side, output token. The side is a truth value here, in `Rank` and in what levels makes of it, as in the
// definitions of a text and of a program (syntax and program: `Operator.right`), which all of it is compared with.
#[derive(Clone, Copy, Debug, PartialEq, Eq)]
pub struct Entry {
    pub token: WordAt,
    pub level: usize,
    pub right: bool,
    pub emits: WordAt,
}

// A level in use: its number, how many operators it has, its side.
#[derive(Clone, Copy, Debug, PartialEq, Eq)]
pub struct Rank {
    pub level: usize,
    pub count: usize,
    pub right: bool,
}

// How many levels a section has, and whether one of them has too many operators.
#[derive(Clone, Copy, Debug, PartialEq, Eq)]
pub struct Levels {
    pub count: usize,
    pub crowded: bool,
}

// The declarations of a use's section and of its operand rule.
#[derive(Clone, Copy, Debug, PartialEq, Eq)]
pub struct Used {
    pub section: usize,
    pub operand: usize,
}

// Why no rules are made for a use: it is not in order, and the pass over the rules says what is wrong with it; or its rules pass a limit.
#[derive(Clone, Copy, Debug, PartialEq, Eq)]
pub enum Untaken {
    NotInOrder,
    OverLimit,
}

// Sections

pub fn read_entry(text: &[u8], at: usize) -> Entry
    requires { at ≤ length text.now }
    ensures { AnEntry text.now at result }
{
    let token = scanner::next_word(text, at);
    let digits = scanner::next_word(text, token.next);
    let side = scanner::next_word(text, digits.next);
    let emits = scanner::next_word(text, side.next);
    let level = reader::number_of(text, digits.start, digits.len);
    let right = scanner::spelt(text, side.start, side.len, b"right");
    Entry {
        token,
        level,
        right,
        emits,
    }
}

// The least level above `above`, after one entry more.
fn with_entry(best: Option<Rank>, above: usize, level: usize, right: bool) -> Option<Rank>
    requires { (rank_or best).count ≤ 65535 }
    ensures { result ≡ next_rank above best level right }
{
    if level <= above || base::GREATEST_LEVEL < level {
        return best;
    }
    match best {
        Some(rank) if rank.level < level => best,
        Some(rank) if rank.level == level => Some(Rank {
            count: rank.count + 1,
            ..rank
        }),
        _ => Some(Rank {
            level,
            count: 1,
            right,
        }),
    }
}

// The next level in use above `above`, of the entries at the place `at`.
pub fn next_level(text: &[u8], at: usize, above: usize) -> Option<Rank>
    requires { (at ≤ length text.now) × (length text.now ≤ 65535) × (above ≤ 15) }
    ensures bound { RankBound above result }
    ensures done { RankDone text.now at above no_rank (rank_or result) }
{
    let mut i = at;
    let mut best = None;
    // no range: what is read says where the next begins
    loop {
        let e = read_entry(text, i);
        best = with_entry(best, above, e.level, e.right);
        let next = e.emits.next;
        let w = scanner::next_word(text, next);
        if w.kind == words::SEMICOLON || next <= i {
            return best;
        }
        i = next;
    }
}

// The levels of the entries at the place `at`.
pub fn section_levels(text: &[u8], at: usize) -> Levels
    requires { (at ≤ length text.now) × (length text.now ≤ 65535) }
    ensures { LevelsDone text.now at result }
{
    let mut levels = Levels {
        count: 0,
        crowded: false,
    };
    let mut next = next_level(text, at, 0);
    while let Some(rank) = next {
        levels = Levels {
            count: levels.count + 1,
            crowded: levels.crowded || base::LABELS < rank.count,
        };
        next = next_level(text, at, rank.level);
    }
    levels
}

// Where the entries of a section stand: the value of its declaration, cut at the text's end.
pub fn entries_at(text: &[u8], rows: &[u16], row: usize) -> usize
    requires { row < 65536 }
    ensures { PlaceOf text.now rows.now row result }
{
    base::number(rows, ROW * row + VALUE).min(text.len())
}

// Pairs

// Pair j is that of the section and the operand rule.
fn is_pair(rows: &[u16], j: usize, section: usize, operand: usize) -> bool
    requires { j < 65536 }
    ensures { result ≡ (eqb (get_or rows.now (5633 + 3 * j) 0) section && eqb (get_or rows.now (5634 + 3 * j) 0) operand) }
{
    base::number(rows, PAIR_SECTION + PAIR * j) == section
        && base::number(rows, PAIR_OPERAND + PAIR * j) == operand
}

// The place of the lowest rule of a pair, where there is such a pair.
pub fn look_pair(rows: &[u16], section: usize, operand: usize) -> Option<usize>
    ensures same { result ≡ answer_of (look_pair section operand (pairs_held rows.now)) }
    ensures low { IfSome result (λ v. v < 65536) }
{
    for j in 0..base::number(rows, PAIRS) {
        if is_pair(rows, j, section, operand) {
            return Some(base::number(rows, PAIR_RULE + PAIR * j));
        }
    }
    None
}

// The place of the lowest rule that is made for a section and an operand rule, by their declarations.
pub fn lowest(rows: &[u16], section: usize, operand: usize) -> usize
    ensures same { result ≡ lowest_in section operand (pairs_held rows.now) }
    ensures low { result < 65536 }
{
    look_pair(rows, section, operand).unwrap_or(0)
}

fn put_three(rows: &mut [u16], i: usize, a: u16, b: u16, c: u16)
    requires { i + 3 ≤ length rows.old }
    ensures { rows.new ≡ set_three rows.old i a b c }
{
    rows[i] = a;
    rows[i + 1] = b;
    rows[i + 2] = c;
}

// Pair k.
pub fn add_pair(rows: &mut [u16], k: usize, section: usize, operand: usize, lowest: usize)
    requires { (5636 + 3 * k ≤ length rows.old) × (k < 65535) × (section < 65536) × (operand < 65536) × (lowest < 65536) }
    ensures { Adds rows.old rows.new k section operand lowest }
{
    put_three(
        rows,
        PAIR_SECTION + PAIR * k,
        section as u16,
        operand as u16,
        lowest as u16,
    );
    rows[PAIRS] = (k + 1) as u16;
}

// The declarations that a use names, from the place behind its `^` on, where both are there.
pub fn read_use(text: &[u8], rows: &[u16], n: usize, at: usize) -> Option<Used>
    requires { Kept text.now rows.now n }
    ensures { UseRead text.now rows.now n at result }
{
    let s = scanner::next_word(text, at);
    let c = scanner::next_word(text, s.next);
    let o = scanner::next_word(text, c.next);
    let section = symbols::find_row(text, rows, n, OPERATORS, s.start, s.len)?;
    let operand = symbols::find_row(text, rows, n, RULE, o.start, o.len)?;
    Some(Used { section, operand })
}

// Rules for these levels pass a limit, behind `own` rules and `others` other names.
pub fn is_over(others: usize, own: usize, l: Levels) -> bool
    requires { (others ≤ 512) × (own ≤ 128) × (l.count ≤ 15) }
    ensures { result ≡ (ltb 128 (own + l.count) || ltb 512 (others + (own + l.count)) || l.crowded) }
{
    let rules = own + l.count;
    base::RULES < rules || base::NAMES < others + rules || l.crowded
}

// The use behind a `^`: its pair is put behind the others, if it is new. How many rules there are then.
fn take_use(
    text: &[u8],
    rows: &mut [u16],
    n: usize,
    others: usize,
    own: usize,
    at: usize,
) -> Result<usize, Untaken>
    requires { (length text.now ≤ 65535) × (length rows.old ≡ 6017) × Kept text.now rows.old n × (others ≤ 512) × (own ≤ 128) × (get_or rows.old 5632 0 ≤ own) }
    ensures { UseDone text.now rows.old n others own at rows.new result }
{
    let u = read_use(text, rows, n, at).ok_or(Untaken::NotInOrder)?;
    if look_pair(rows, u.section, u.operand).is_some() {
        return Ok(own);
    }
    let i = entries_at(text, rows, u.section);
    let l = section_levels(text, i);
    if l.count == 0 {
        return Err(Untaken::NotInOrder);
    }
    if is_over(others, own, l) {
        return Err(Untaken::OverLimit);
    }
    let k = base::number(rows, PAIRS);
    add_pair(rows, k, u.section, u.operand, own);
    Ok(own + l.count)
}

fn take_word(
    text: &[u8],
    rows: &mut [u16],
    n: usize,
    others: usize,
    own: usize,
    w: WordAt,
) -> Result<usize, Untaken>
    requires { (length text.now ≤ 65535) × (length rows.old ≡ 6017) × Kept text.now rows.old n × (others ≤ 512) × (own ≤ 128) × (get_or rows.old 5632 0 ≤ own) }
    ensures { WordDone text.now rows.old n others own w rows.new result }
{
    if w.kind == words::CARET {
        take_use(text, rows, n, others, own, w.next)
    } else {
        Ok(own)
    }
}

// The words to `end`, or to the end of the text, or to a use that is not in order.
fn take_words(
    text: &[u8],
    rows: &mut [u16],
    n: usize,
    others: usize,
    own: usize,
    at: usize,
) -> Result<(), Refusal>
    requires { (at ≤ length text.now) × (length text.now ≤ 65535) × (length rows.old ≡ 6017) × Kept text.now rows.old n × (others ≤ 512) × (own ≤ 128) × (get_or rows.old 5632 0 ≤ own) }
    ensures { PairsFrom text.now rows.old n others own at rows.new result }
{
    let mut i = at;
    let mut k = own;
    // no range: what is read says where the next begins
    loop {
        let w = scanner::next_word(text, i);
        if w.kind < words::FIRST_WORD || w.kind == words::END {
            return Ok(());
        }
        match take_word(text, rows, n, others, k, w) {
            Ok(rules) => k = rules,
            Err(Untaken::NotInOrder) => return Ok(()),
            Err(Untaken::OverLimit) => {
                return Err(Refusal {
                    fault: Fault::OverLimit,
                    at: w.start,
                    len: w.len,
                });
            }
        }
        i = w.next;
    }
}

// No declaration is a section of operators.
fn is_without(rows: &[u16], n: usize) -> bool
    requires { n ≤ 512 }
    ensures { result ≡ true → NoSection rows.now n }
{
    for i in 0..n {
        if base::number(rows, ROW * i) == OPERATORS {
            return false;
        }
    }
    true
}

// The pairs of the rules from the place `at` on. The rows hold n declarations, the first rule's being `first`. A use that is not in order ends them.
pub fn pairs(
    text: &[u8],
    rows: &mut [u16],
    n: usize,
    first: usize,
    at: usize,
) -> Result<(), Refusal>
    requires { (at ≤ length text.now) × (length text.now ≤ 65535) × (length rows.old ≡ 6017) × Kept text.now rows.old n × (first ≤ 512) }
    ensures { PairsDone text.now rows.old n first at rows.new result }
{
    rows[PAIRS] = 0;
    // most texts use no operators: their words are not gone through
    if n < first || base::RULES < n - first || is_without(rows, n) {
        return Ok(());
    }
    take_words(text, rows, n, first, n - first, at)
}
