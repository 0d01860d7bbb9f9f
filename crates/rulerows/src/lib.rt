// The rows of a text's rules, in a lent sheet: a row for each, in text order, and behind them those made for operators.
#![tactic(auto)]

ghost use Rattle.std.specs.Prelude.{◌≡◌, ◌+◌, ◌*◌, ◌<◌, ◌≤◌, length};
ghost use Rattle.mapper.specs.Mapped.{Holds, Placed};
ghost use Rattle.rulerows.specs.Filled.{set_row, WrittenPut, PairOf, LevelsPut, MadePut, Filled};

use carrier::ROW;
use frontend::Resolved;
use symbols::{NAME_LEN, NAME_START, PAIR, PAIR_OPERAND, PAIR_SECTION, PAIRS};

// The numbers of a row; a name is a part of the text, the operand rule's begins at `operand` and has `size` bytes.
#[derive(Clone, Copy)]
pub struct Row {
    pub location: u16,
    pub start: u16,
    pub len: u16,
    pub operand: u16,
    pub size: u16,
    pub level: u16,
}

// A pair of section and operand rule: where the section's entries stand, and the two names.
#[derive(Clone, Copy)]
pub struct Pair {
    pub at: usize,
    pub start: u16,
    pub len: u16,
    pub operand: u16,
    pub size: u16,
}

// Row k.
fn put_row(sheet: &mut [u16], k: usize, row: Row)
    requires { 6 * k + 6 ≤ length sheet.old }
    ensures { sheet.new ≡ set_row sheet.old (6 * k) row }
{
    let i = ROW * k;
    sheet[i] = row.location;
    sheet[i + carrier::NAME_START] = row.start;
    sheet[i + carrier::NAME_LEN] = row.len;
    sheet[i + carrier::OPERAND_START] = row.operand;
    sheet[i + carrier::OPERAND_LEN] = row.size;
    sheet[i + carrier::LEVEL] = row.level;
}

// The rows of the rules whose declarations stand in the rows from `first` on.
fn put_written(rows: &[u16], first: usize, places: &[usize], rules: usize, sheet: &mut [u16])
    requires { Holds first rules × (rules ≤ length places.now) × (length sheet.old ≡ 770) }
    ensures { WrittenPut rows.now first places.now rules sheet.new }
{
    for k in 0..rules {
        let i = symbols::ROW * (first + k);
        let row = Row {
            location: (places[k] % 65536) as u16,
            start: base::cell(rows, i + NAME_START),
            len: base::cell(rows, i + NAME_LEN),
            operand: 0,
            size: 0,
            level: 0,
        };
        put_row(sheet, k, row);
    }
}

// Pair j.
fn pair_of(text: &[u8], rows: &[u16], j: usize) -> Pair
    requires { j < 65536 }
    ensures { PairOf text.now rows.now j result }
{
    let section = base::number(rows, PAIR_SECTION + PAIR * j);
    let operand = base::number(rows, PAIR_OPERAND + PAIR * j);
    let at = maker::entries_at(text, rows, section);
    Pair {
        at,
        start: base::cell(rows, symbols::ROW * section + NAME_START),
        len: base::cell(rows, symbols::ROW * section + NAME_LEN),
        operand: base::cell(rows, symbols::ROW * operand + NAME_START),
        size: base::cell(rows, symbols::ROW * operand + NAME_LEN),
    }
}

// The rows of a pair's levels, the lowest first, from rule k on; where they end.
fn put_levels(
    text: &[u8],
    pair: Pair,
    places: &[usize],
    k: usize,
    rules: usize,
    sheet: &mut [u16],
) -> usize
    requires { (pair.at ≤ length text.now) × (length text.now ≤ 65535) × (k ≤ rules) × (rules ≤ 128) × (rules ≤ length places.now) × (length sheet.old ≡ 770) }
    ensures { LevelsPut text.now pair places.now k rules sheet.old sheet.new result }
{
    let mut i = k;
    let mut level = maker::next_level(text, pair.at, 0);
    while let Some(rank) = level {
        if rules <= i {
            return i;
        }
        let row = Row {
            location: (places[i] % 65536) as u16,
            start: pair.start,
            len: pair.len,
            operand: pair.operand,
            size: pair.size,
            level: rank.level as u16,
        };
        put_row(sheet, i, row);
        i += 1;
        level = maker::next_level(text, pair.at, rank.level);
    }
    i
}

// The rows of the rules made for operators, pair by pair.
fn put_made(text: &[u8], rows: &[u16], b: Resolved, places: &[usize], sheet: &mut [u16])
    requires { Placed text.now rows.now b × (b.rules ≤ length places.now) × (length sheet.old ≡ 770) × (length text.now ≤ 65535) }
    ensures { MadePut text.now rows.now b 0 b.written places.now sheet.old sheet.new }
{
    let mut k = b.written;
    for j in 0..base::number(rows, PAIRS) {
        let pair = pair_of(text, rows, j);
        k = put_levels(text, pair, places, k, b.rules, sheet);
    }
}

// The rows of the rules of a text that was read and resolved; `places` has their locations.
pub fn fill(text: &[u8], rows: &[u16], b: Resolved, places: &[usize], sheet: &mut [u16])
    requires { Placed text.now rows.now b × (b.rules ≤ length places.now) × (length sheet.old ≡ 770) × (length text.now ≤ 65535) }
    ensures { Filled text.now rows.now b places.now sheet.new }
{
    put_written(rows, b.first, places, b.written, sheet);
    put_made(text, rows, b, places, sheet);
}
