// The map of a text's rules, in a lent buffer: a row for each, in text order, and behind them those made for operators.
#![tactic(auto)]

ghost use Rattle.std.specs.Prelude.{◌≡◌, ◌+◌, ◌*◌, ◌-◌, ◌<◌, ◌≤◌, length};
ghost use Rattle.machine.specs.Bytes.{bytes_of, over};
ghost use Rattle.mapping.specs.Mapping.{row_words, rows_words, room_in, map_rules};
ghost use Rattle.frontend.specs.Resolving.{IsRead};
ghost use Rattle.mapper.specs.Mapped.{Puts, held_rows, levels_held, EndOf, MadePut, Maps, Holds, Placed, MapsHeld};

use frontend::Resolved;
use levels::Part;
use symbols::{NAME_LEN, NAME_START, PAIR, PAIR_OPERAND, PAIR_RULE, PAIR_SECTION, PAIRS, ROW};

// A row: three numbers of 64 bits.
const ROW_BYTES: usize = 24;

const ROW_NUMBERS: usize = 3;

// What the map's call answers: 0 and the rules, or a number.
#[derive(Clone, Copy)]
pub struct Mapped {
    pub number: u16,
    pub rules: usize,
}

// Row k: a rule's name and its location.
fn put_row(out: &mut [u8], k: usize, start: usize, len: usize, location: usize)
    requires { 24 * k + 24 ≤ length out.old }
    ensures { Puts out.old out.new (12 * k) (row_words (record { start = start; size = len; location = location })) }
{
    let i = ROW_NUMBERS * k;
    buffers::put_number(out, i, start as u64);
    buffers::put_number(out, i + 1, len as u64);
    buffers::put_number(out, i + 2, location as u64);
}

// The rows of the rules whose declarations stand in the rows from `first` on.
fn put_rows(text: &[u8], rows: &[u16], first: usize, places: &[usize], rules: usize, out: &mut [u8])
    requires { Holds first rules × (rules ≤ length places.now) × (24 * rules ≤ length out.old) }
    ensures { out.new ≡ over (bytes_of (rows_words (held_rows text.now rows.now places.now first 0 rules))) out.old }
{
    for k in 0..rules {
        let i = ROW * (first + k);
        let start = base::number(rows, i + NAME_START);
        let len = base::number(rows, i + NAME_LEN);
        put_row(
            out,
            k,
            start,
            symbols::part_len(text, start, len),
            places[k],
        );
    }
}

// The rows of the rules from k to `end`, which have one name.
fn put_levels(out: &mut [u8], name: Part, places: &[usize], k: usize, end: usize)
    requires { (k ≤ end) × (end ≤ 128) × (end ≤ length places.now) × (24 * end ≤ length out.old) }
    ensures { Puts out.old out.new (12 * k) (rows_words (levels_held name.start name.len places.now k (end - k))) }
{
    for i in k..end {
        put_row(out, i, name.start, name.len, places[i]);
    }
}

// Where the rules of pair j end: where the next pair's begin, or all of them.
fn end_of(rows: &[u16], j: usize, rules: usize) -> usize
    requires { j < 65536 }
    ensures { EndOf rows.now j rules result }
{
    if j + 1 < base::number(rows, PAIRS) {
        let next = base::number(rows, PAIR_RULE + PAIR * (j + 1));
        if next < rules {
            return next;
        }
    }
    rules
}

// The rows of the rules made for operators: each has the name of its pair's first use, which stands behind that of the pair before.
fn put_made(text: &[u8], rows: &[u16], b: Resolved, places: &[usize], out: &mut [u8])
    requires { Placed text.now rows.now b × (b.rules ≤ length places.now) × (24 * b.rules ≤ length out.old) }
    ensures { MadePut text.now rows.now b 0 b.written b.body places.now out.old out.new }
{
    let mut k = b.written;
    let mut at = b.body;
    for j in 0..base::number(rows, PAIRS) {
        let section = base::number(rows, PAIR_SECTION + PAIR * j);
        let operand = base::number(rows, PAIR_OPERAND + PAIR * j);
        let u = levels::first_use(text, rows, b.declared, at, section, operand);
        let end = end_of(rows, j, b.rules);
        if end < k {
            return;
        }
        put_levels(out, u.name, places, k, end);
        k = end;
        at = u.next;
    }
}

// The map of the rules in the buffers, if their table has its room and the rows have theirs.
fn map_held(
    text: &[u8],
    rows: &[u16],
    b: Resolved,
    cells: &[u16],
    sorts: &[u8],
    out: &mut [u8],
) -> Mapped
    requires { Placed text.now rows.now b }
    ensures { MapsHeld text.now rows.now b cells.now sorts.now out.old out.new result.number result.rules }
{
    let mut places = [0usize; frontend::RULES];
    if base::TABLE_WORDS < sizes::locate(cells, sorts, b.rules, &mut places) {
        return Mapped {
            number: base::TOO_SHORT,
            rules: 0,
        };
    }
    if out.len() / ROW_BYTES < b.rules {
        return Mapped {
            number: base::TOO_SHORT,
            rules: 0,
        };
    }
    put_rows(text, rows, b.first, &places, b.written, out);
    put_made(text, rows, b, &places, out);
    Mapped {
        number: 0,
        rules: b.rules,
    }
}

// The map of a text that the syntax pass has read.
fn map_read(text: &[u8], out: &mut [u8]) -> Mapped
    requires { IsRead text.now }
    ensures { Maps (map_rules text.now (room_in out.old)) result.number result.rules out.old out.new }
{
    let mut rows = [0u16; frontend::ROWS];
    let mut cells = [0u16; frontend::CELLS];
    let mut starts = [0u16; frontend::RULES];
    let mut sorts = [0u8; frontend::RULES];
    let b = match frontend::resolve(text, &mut rows, &mut cells, &mut starts, &mut sorts) {
        Ok(b) => b,
        Err(e) => {
            return Mapped {
                number: u16::from(e.fault),
                rules: 0,
            };
        }
    };
    if frontend::CELLS < b.cells {
        return Mapped {
            number: base::TOO_SHORT,
            rules: 0,
        };
    }
    map_held(text, &rows, b, &cells, &sorts, out)
}

// The map of a text's rules, or the number of its first fault.
pub fn map_rules(text: &[u8], out: &mut [u8]) -> Mapped
    ensures { Maps (map_rules text.now (room_in out.old)) result.number result.rules out.old out.new }
{
    if let Err(e) = reader::check_syntax(text) {
        return Mapped {
            number: u16::from(e.fault),
            rules: 0,
        };
    }
    map_read(text, out)
}
