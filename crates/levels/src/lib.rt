// The rules made for operators, one for each level of each pair, as cells behind those of the rules written.
#![tactic(auto)]

ghost use Rattle.std.specs.Prelude.{◌≡◌, [], ◌∷◌, ℕ, ◌+◌, ◌<◌, ◌≤◌, ◌%◌, length, set, MatchOption};
ghost use Rattle.declarations.specs.Decls.{value_in};
ghost use Rattle.levels.specs.LevelCells.{open_cells, close_cells, called_by};
ghost use Rattle.levels.specs.Making.{entry_cells, OperatorsPut, LevelPut, SiteDone, SiteOf, MakeDone};
ghost use Rattle.levels.specs.Naming.{Names, WordOf, FirstDone};
ghost use Rattle.maker.specs.Marks.{use_of};
ghost use Rattle.resolver.specs.Resolved.{Appends};
ghost use Rattle.scanner.specs.Next.{as_word};
ghost use Rattle.symbols.specs.Index.{Kept};
ghost use Rattle.symbols.specs.Rows.{held, word_of};
ghost use Rattle.words.specs.Words.{words_at};

use maker::{Entry, Rank, Used};
use scanner::WordAt;
use symbols::{INPUT, OUTPUT, PAIR, PAIR_OPERAND, PAIR_RULE, PAIR_SECTION, PAIRS, ROW, VALUE};

// The alternatives of a level have one label.
const ONE_LABEL: u16 = cells::ALTERNATIVE + 1;

// Cells behind another.
const BY_TOKEN: usize = cells::BY_TOKEN as usize;

const EXIT: usize = cells::EXIT as usize;

const END: usize = cells::END as usize;

// A pair: where its section's entries stand, the place of its operand rule, that of its lowest rule, how many cells there are before it.
#[derive(Clone, Copy, Debug, PartialEq, Eq)]
pub struct Site {
    pub at: usize,
    pub operand: usize,
    pub own: usize,
    pub count: usize,
}

// A rule to be made: where its section's entries stand, its level and side, its place, the rule that it calls first.
#[derive(Clone, Copy, Debug, PartialEq, Eq)]
pub struct Nested {
    pub at: usize,
    pub level: usize,
    pub right: bool,
    pub own: usize,
    pub higher: usize,
}

// The alternatives of a rule: the level of their entries, the rule that each calls.
#[derive(Clone, Copy, Debug, PartialEq, Eq)]
pub struct Aim {
    pub level: usize,
    pub called: usize,
}

// A part of the text.
#[derive(Clone, Copy, Debug, PartialEq, Eq)]
pub struct Part {
    pub start: usize,
    pub len: usize,
}

// A use of operators that was found: its name, and the place behind its `^`, where the uses behind it begin.
#[derive(Clone, Copy, Debug, PartialEq, Eq)]
pub struct FirstUse {
    pub name: Part,
    pub next: usize,
}

// How many cells and rules there are.
#[derive(Clone, Copy, Debug, PartialEq, Eq)]
pub struct Made {
    pub count: usize,
    pub rules: usize,
}

// A level's rule

// The value of a word in a class, 0 where it has none.
fn value_in(text: &[u8], rows: &[u16], n: usize, class: usize, start: usize, len: usize) -> usize
    requires { Kept text.now rows.now n }
    ensures same { (kind : ℕ) → result ≡ value_in (held text.now rows.now n) class (word_of text.now kind start len) }
    ensures low { result < 65536 }
{
    symbols::find_value(text, rows, n, class, start, len).unwrap_or(0)
}

// `| token: @called .emits`
fn put_operator(
    text: &[u8],
    rows: &[u16],
    n: usize,
    called: usize,
    e: Entry,
    cells: &mut [u16],
    count: usize,
) -> usize
    requires { Kept text.now rows.now n × (called < 65536) }
    ensures { Appends cells.old count (65 ∷ value_in (held text.now rows.now n) 1 (as_word text.now e.token) ∷ 8 ∷ called ∷ 5 ∷ value_in (held text.now rows.now n) 2 (as_word text.now e.emits) ∷ 0 ∷ []) cells.new result }
{
    let token = e.token;
    let emits = e.emits;
    let t = value_in(text, rows, n, INPUT, token.start, token.len);
    let o = value_in(text, rows, n, OUTPUT, emits.start, emits.len);
    let a = resolver::put_two(cells, count, ONE_LABEL, t);
    let b = resolver::put_two(cells, a, cells::CALL, called);
    let c = resolver::put_two(cells, b, cells::EMIT, o);
    resolver::put(cells, c, cells::END)
}

// An entry, if it is of the level.
fn put_if(
    text: &[u8],
    rows: &[u16],
    n: usize,
    aim: Aim,
    e: Entry,
    cells: &mut [u16],
    count: usize,
) -> usize
    requires { Kept text.now rows.now n × (aim.called < 65536) × (count ≤ length cells.old + 1) }
    ensures { Appends cells.old count (entry_cells (held text.now rows.now n) text.now aim.level aim.called e) cells.new result }
{
    if e.level == aim.level {
        put_operator(text, rows, n, aim.called, e, cells, count)
    } else {
        count
    }
}

// The entries of the level, from the place `at` on.
fn put_operators(
    text: &[u8],
    rows: &[u16],
    n: usize,
    at: usize,
    aim: Aim,
    cells: &mut [u16],
    count: usize,
) -> usize
    requires { (at ≤ length text.now) × Kept text.now rows.now n × (aim.called < 65536) × (count ≤ length cells.old + 1) }
    ensures { OperatorsPut text.now rows.now n at aim.level aim.called cells.old count cells.new result }
{
    let mut i = at;
    let mut c = count;
    // no range: what is read says where the next begins
    loop {
        let e = maker::read_entry(text, i);
        let next = e.emits.next;
        c = put_if(text, rows, n, aim, e, cells, c);
        let w = scanner::next_word(text, next);
        if w.kind == words::SEMICOLON || next <= i {
            return c;
        }
        i = next;
    }
}

fn open_level(cells: &mut [u16], count: usize, right: bool, higher: usize) -> usize
    requires { higher < 65536 }
    ensures { Appends cells.old count (open_cells right higher) cells.new result }
{
    let c = resolver::put_two(cells, count, cells::CALL, higher);
    if right {
        resolver::put(cells, c, cells::BY_TOKEN)
    } else {
        resolver::put_two(cells, c, cells::CYCLE, BY_TOKEN)
    }
}

fn close_level(cells: &mut [u16], count: usize, right: bool) -> usize
    ensures { Appends cells.old count (close_cells right) cells.new result }
{
    if right {
        let c = resolver::put_two(cells, count, cells::OTHERWISE, END);
        resolver::put(cells, c, cells::END)
    } else {
        let a = resolver::put_two(cells, count, cells::OTHERWISE, EXIT);
        let b = resolver::put_two(cells, a, cells::END, END);
        resolver::put(cells, b, cells::END)
    }
}

// The rule that the alternatives call: a left level the next higher one, a right level itself.
fn called_by(x: Nested) -> usize
    ensures { result ≡ called_by x.right x.own x.higher }
{
    if x.right { x.own } else { x.higher }
}

fn put_level(
    text: &[u8],
    rows: &[u16],
    n: usize,
    x: Nested,
    cells: &mut [u16],
    count: usize,
) -> usize
    requires { (x.at ≤ length text.now) × Kept text.now rows.now n × (x.own < 65536) × (x.higher < 65536) }
    ensures { LevelPut text.now rows.now n x cells.old count cells.new result }
{
    let aim = Aim {
        level: x.level,
        called: called_by(x),
    };
    let a = open_level(cells, count, x.right, x.higher);
    let b = put_operators(text, rows, n, x.at, aim, cells, a);
    close_level(cells, b, x.right)
}

// Where rule k begins; it has no value.
fn store(starts: &mut [u16], sorts: &mut [u8], k: usize, c: usize)
    requires { (k < length starts.old) × (k < length sorts.old) }
    ensures starts_after { starts.new ≡ set starts.old k (c % 65536) }
    ensures sorts_after { sorts.new ≡ set sorts.old k 0 }
{
    starts[k] = (c % 65536) as u16;
    sorts[k] = 0;
}

// The rules of a pair

// The rule above the one at `own`: the next level's, or the operand rule.
fn higher_of(own: usize, operand: usize, next: Option<Rank>) -> usize
    requires { own < 65535 }
    ensures { MatchOption next (result ≡ operand) (λ _. result ≡ own + 1) }
{
    match next {
        Some(_) => own + 1,
        None => operand,
    }
}

// Its levels, the lowest first.
pub fn make_levels(
    text: &[u8],
    rows: &[u16],
    n: usize,
    q: Site,
    cells: &mut [u16],
    starts: &mut [u16],
    sorts: &mut [u8],
) -> Made
    requires { (q.at ≤ length text.now) × (length text.now ≤ 65535) × Kept text.now rows.now n × (q.operand < 65536) × (q.own < 65536) × (length cells.old ≤ 60000) × (q.count ≤ length cells.old + 1) × (length starts.old ≡ 128) × (length sorts.old ≡ 128) }
    ensures { SiteDone text.now rows.now n q cells.old q.count starts.old sorts.old cells.new starts.new sorts.new result }
{
    let mut rules = q.own;
    let mut count = q.count;
    let mut level = maker::next_level(text, q.at, 0);
    while let Some(rank) = level {
        if base::RULES <= rules {
            return Made { count, rules };
        }
        let next = maker::next_level(text, q.at, rank.level);
        let x = Nested {
            at: q.at,
            level: rank.level,
            right: rank.right,
            own: rules,
            higher: higher_of(rules, q.operand, next),
        };
        store(starts, sorts, rules, count);
        count = put_level(text, rows, n, x, cells, count);
        rules += 1;
        level = next;
    }
    Made { count, rules }
}

// The site of pair j, behind `count` cells.
fn site_of(text: &[u8], rows: &[u16], j: usize, count: usize) -> Site
    requires { j < 65536 }
    ensures { SiteOf text.now rows.now j count result }
{
    let section = base::number(rows, PAIR_SECTION + PAIR * j);
    let rule = base::number(rows, PAIR_OPERAND + PAIR * j);
    let own = base::number(rows, PAIR_RULE + PAIR * j);
    let at = maker::entries_at(text, rows, section);
    let operand = base::number(rows, ROW * rule + VALUE);
    Site {
        at,
        operand,
        own,
        count,
    }
}

// The rules made for the pairs in the rows, behind the text's own: their cells, where each begins, and its sort.
pub fn make(
    text: &[u8],
    rows: &[u16],
    n: usize,
    written: Made,
    cells: &mut [u16],
    starts: &mut [u16],
    sorts: &mut [u8],
) -> Made
    requires { (length text.now ≤ 65535) × Kept text.now rows.now n × (length cells.old ≤ 60000) × (written.count ≤ length cells.old + 1) × (length starts.old ≡ 128) × (length sorts.old ≡ 128) }
    ensures { MakeDone text.now rows.now n written.rules cells.old written.count starts.old sorts.old cells.new starts.new sorts.new result }
{
    let mut made = written;
    for j in 0..base::number(rows, PAIRS) {
        let q = site_of(text, rows, j, made.count);
        made = make_levels(text, rows, n, q, cells, starts, sorts);
    }
    made
}

// Names

// The word w begins a use of the section and the operand rule, by their declarations.
fn is_use_of(text: &[u8], rows: &[u16], n: usize, w: WordAt, section: usize, operand: usize) -> bool
    requires { Kept text.now rows.now n }
    ensures { WordOf text.now rows.now n w section operand result }
{
    w.kind == words::CARET
        && maker::read_use(text, rows, n, w.next) == Some(Used { section, operand })
}

// What stands from the `^` w to the end of the operand rule's name.
fn name_of(text: &[u8], w: WordAt) -> Part
    requires { w.next ≤ length text.now }
    ensures { (use_of (as_word text.now w) (words_at text.now w.next)).operand.kind ≡ 257 → Names (use_of (as_word text.now w) (words_at text.now w.next)) result }
{
    let s = scanner::next_word(text, w.next);
    let c = scanner::next_word(text, s.next);
    let o = scanner::next_word(text, c.next);
    Part {
        start: w.start,
        len: (o.start + o.len).saturating_sub(w.start),
    }
}

fn not_found(at: usize) -> FirstUse
    ensures { result.next ≡ at }
{
    FirstUse {
        name: Part { start: 0, len: 0 },
        next: at,
    }
}

// The first use of a section and an operand rule, by their declarations, in the rules from the place `at` on.
pub fn first_use(
    text: &[u8],
    rows: &[u16],
    n: usize,
    at: usize,
    section: usize,
    operand: usize,
) -> FirstUse
    requires { (at ≤ length text.now) × Kept text.now rows.now n }
    ensures { FirstDone text.now rows.now n at section operand result }
{
    let mut i = at;
    // no range: what is read says where the next begins
    loop {
        let w = scanner::next_word(text, i);
        if w.kind < words::FIRST_WORD || w.kind == words::END {
            return not_found(i);
        }
        if is_use_of(text, rows, n, w, section, operand) {
            return FirstUse {
                name: name_of(text, w),
                next: w.next,
            };
        }
        i = w.next;
    }
}
