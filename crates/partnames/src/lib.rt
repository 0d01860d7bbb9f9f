// The names that a part is resolved by: the common part and a further part in one text, and rows for what both declare.
#![tactic(auto)]

ghost use Rattle.std.specs.Prelude.{true, ◌≡◌, ◌+◌, ◌*◌, ◌-◌, ◌≤◌, ◌<◌, length, take};
ghost use Rattle.names.specs.Understand.{is_one};
ghost use Rattle.partnames.specs.Buffer.{Copies, Fills, part_place, both_texts};
ghost use Rattle.partnames.specs.Declaring.{BeginsLine, SomeLines, Declares};
ghost use Rattle.partnames.specs.Heads.{Inside, CopiesPart, CopiesHeads};
ghost use Rattle.partnames.specs.Mentioning.{leads, stops, rules_held, Mentions, AddsFrom};
ghost use Rattle.partnames.specs.Settling.{Settles};
ghost use Rattle.scanner.specs.Next.{as_word};
ghost use Rattle.symbols.specs.Search.{part};

use base::{Fault, Refusal, number};
use collector::{Part, Row, Spot, State};
use reader::{Seen, look};
use scanner::WordAt;

// What stands between the common part and the further one.
const LINE_FEED: u8 = 10;

// How many rows there are, the row of the list's first line, the place behind the list.
#[derive(Clone, Copy, Debug, PartialEq, Eq)]
pub struct Declared {
    pub count: usize,
    pub first: usize,
    pub at: usize,
}

// A line of the list takes this many numbers: where its name starts and its length, and the same of its type.
pub const HEAD: usize = 4;

const HEAD_TYPE: usize = 2;

// One text of both

// n bytes of the source, to the place `at`.
fn copy_bytes(source: &[u8], from: usize, n: usize, buffer: &mut [u8], at: usize)
    requires { (from + n ≤ length source.now) × (at + n ≤ length buffer.old) }
    ensures { Copies source.now buffer.old buffer.new from n at }
{
    buffer[at..at + n].copy_from_slice(&source[from..from + n]);
}

// Line feeds from the place `at` on, before the place `end`.
fn fill_feeds(buffer: &mut [u8], at: usize, end: usize)
    requires { (at ≤ end) × (end ≤ length buffer.old) }
    ensures { Fills buffer.old buffer.new (end - at) at }
{
    buffer[at..end].fill(LINE_FEED);
}

// Where the further part behind the place `from` is put, the common part being taken before the place `at`.
pub fn part_place(at: usize, from: usize) -> usize
    requires { at < 65536 }
    ensures { result ≡ part_place at from }
{
    from.max(at + 1)
}

// The common part before the place `at`, a line feed or more, the further part behind the place `from`: how many bytes they are.
pub fn join(common: &[u8], at: usize, part: &[u8], from: usize, buffer: &mut [u8]) -> usize
    requires { (at ≤ length common.now) × (at < 65536) × (from ≤ length part.now) × (part_place at from + (length part.now - from) ≤ length buffer.old) }
    ensures size { result ≡ part_place at from + (length part.now - from) }
    ensures bytes { take result buffer.new ≡ both_texts common.now at part.now from }
{
    copy_bytes(common, 0, at, buffer, 0);
    let next = part_place(at, from);
    fill_feeds(buffer, at, next);
    let n = part.len() - from;
    copy_bytes(part, from, n, buffer, next);
    next + n
}

// Rows of a common part

// A line of the list, `NAME >> type;`, begins at the place `at`; a rule has a colon there.
fn begins_line(text: &[u8], at: usize) -> bool
    requires { at ≤ length text.now }
    ensures { BeginsLine text.now at result }
{
    let name = look(text, at);
    if name.kind != words::NAME {
        return false;
    }
    let sign = look(text, name.next);
    if sign.kind != words::TWICE {
        return false;
    }
    let gives = look(text, sign.next);
    let semicolon = look(text, gives.next);
    semicolon.kind == words::SEMICOLON
}

// The lines of the list, the first of them being row `count`.
fn collect_list(text: &[u8], at: usize, rows: &mut [u16], count: usize) -> Spot
    requires { (at ≤ length text.now) × (length text.now ≤ 65535) × (count ≤ 512) }
    ensures { SomeLines text.now rows.old rows.new at count 0 result }
{
    let mut i = at;
    let mut n = count;
    // no range: what is read says where the next begins
    loop {
        if !begins_line(text, i) {
            return Spot { at: i, count: n };
        }
        let r = collector::collect_rule(text, i, rows, n, n - count);
        if r.at <= i {
            return r;
        }
        i = r.at;
        n = r.count;
    }
}

// The sections and the list of a text that begins with a common part up to its `end`.
pub fn declare(text: &[u8], rows: &mut [u16]) -> Declared
    requires { length text.now ≤ 65535 }
    ensures { Declares text.now rows.old rows.new result }
{
    let seen = Seen {
        plain: 0,
        taking: 0,
        giving: 0,
        both: 0,
    };
    let state = State {
        input: 0,
        output: 0,
        error: 0,
        seen,
    };
    let s = collector::collect_sections(text, 0, rows, 0, state);
    let head = look(text, s.at);
    let l = collect_list(text, head.next, rows, s.count);
    Declared {
        count: l.count,
        first: s.count,
        at: l.at,
    }
}

// Rows of the other rules that a part names

// The part of the text is the name of one of the rows from `first` on.
fn is_rule(text: &[u8], rows: &[u16], first: usize, n: usize, start: usize, len: usize) -> bool
    requires { n ≤ 512 }
    ensures { result ≡ is_one (part text.now start len) (rules_held text.now rows.now first n) }
{
    for i in first..n {
        let name = number(rows, symbols::ROW * i + symbols::NAME_START);
        let size = number(rows, symbols::ROW * i + symbols::NAME_LEN);
        if symbols::same_part(text, start, len, name, size) {
            return true;
        }
    }
    false
}

// Behind a word of this kind stands the name of a rule.
fn leads(kind: u16) -> bool
    ensures { result ≡ leads kind }
{
    kind == words::AT || kind == words::SEMICOLON
}

// The rules end at a word of this kind.
fn stops(kind: u16) -> bool
    ensures { result ≡ stops kind }
{
    kind <= words::LAST || kind == words::END
}

// A row for the word w, if it names a rule that has none: how many rows there are then; none where there was no room for it.
fn add_name(
    text: &[u8],
    rows: &mut [u16],
    n: usize,
    first: usize,
    led: bool,
    w: WordAt,
) -> Option<usize>
    requires { (first ≤ n) × (n ≤ 512) × (length text.now ≤ 65535) × (w.start + w.len ≤ length text.now) }
    ensures { Mentions text.now rows.old rows.new first n led (as_word text.now w) result }
{
    if !led || w.kind != words::NAME {
        return Some(n);
    }
    if is_rule(text, rows, first, n, w.start, w.len) {
        return Some(n);
    }
    if n == base::NAMES {
        return None;
    }
    let d = Row {
        class: symbols::RULE,
        value: n - first,
        name: Part::from(w),
        second: None,
        third: None,
    };
    Some(collector::put_row(rows, n, d))
}

// A row for each rule that the rules from the place `at` on name and that has none: how many rows there are then, or 9 at the first word for which
// there was no room.
pub fn add_others(
    text: &[u8],
    rows: &mut [u16],
    n: usize,
    first: usize,
    at: usize,
) -> Result<usize, Refusal>
    requires { (first ≤ n) × (n ≤ 512) × (length text.now ≤ 65535) × (at ≤ length text.now) }
    ensures { AddsFrom text.now rows.old rows.new first n at true result }
{
    let mut i = at;
    let mut count = n;
    let mut led = true;
    // no range: what is read says where the next begins
    loop {
        let w = look(text, i);
        let end = stops(w.kind);
        if end {
            return Ok(count);
        }
        let Some(more) = add_name(text, rows, count, first, led, w) else {
            return Err(Refusal {
                fault: Fault::OverLimit,
                at: w.start,
                len: w.len,
            });
        };
        count = more;
        led = leads(w.kind);
        i = w.next;
    }
}

// Faults

// The first fault of the sections and of the list, whose lines are `lines` rows from `first` on; the first n rows are indexed.
pub fn settle(
    text: &[u8],
    rows: &mut [u16],
    n: usize,
    first: usize,
    lines: usize,
) -> Result<(), Refusal>
    requires { (length rows.old ≡ 6017) × (n ≤ 512) × (first + lines ≤ n) }
    ensures { Settles text.now rows.old rows.new n first lines result }
{
    symbols::index(text, rows, n);
    declarer::check_declarations(text, rows, n)?;
    declarer::check_lines(text, rows, n, first, first + lines)
}

// The list as numbers

// A part of the text, cut at the text's end.
fn part_inside(text: &[u8], start: usize, len: usize) -> Part
    ensures { Inside text.now start len result }
{
    if text.len() < start {
        return Part { start: 0, len: 0 };
    }
    Part {
        start,
        len: symbols::part_len(text, start, len),
    }
}

// The part of the rows' numbers from k on, to the heads' numbers from p on.
fn copy_part(text: &[u8], rows: &[u16], k: usize, heads: &mut [u16], p: usize)
    requires { (length text.now ≤ 65535) × (k ≤ 65535) × (p + 2 ≤ length heads.old) }
    ensures { CopiesPart text.now rows.now k heads.old heads.new p }
{
    let r = part_inside(text, number(rows, k), number(rows, k + 1));
    collector::put_part(heads, p, r);
}

// The names and types of the list's lines, which are `count` rows from `first` on.
pub fn copy_heads(text: &[u8], rows: &[u16], first: usize, count: usize, heads: &mut [u16])
    requires { (length text.now ≤ 65535) × (first + count ≤ 512) × (4 * count ≤ length heads.old) }
    ensures { CopiesHeads text.now rows.now first count heads.old heads.new }
{
    for i in 0..count {
        let k = symbols::ROW * (first + i);
        copy_part(text, rows, k + symbols::NAME_START, heads, HEAD * i);
        copy_part(
            text,
            rows,
            k + symbols::THIRD_START,
            heads,
            HEAD * i + HEAD_TYPE,
        );
    }
}
