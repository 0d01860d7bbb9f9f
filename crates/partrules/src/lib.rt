// The rules of a part: each resolved by itself, and its words written as an object has them.
#![tactic(auto)]

ghost use Rattle.std.specs.Prelude.{List, [], ◌∷◌, ◌++◌, ◌≡◌, ℕ, ◌+◌, ◌*◌, ◌-◌, ◌<◌, ◌≤◌, length, take, drop, set, get_or, ◌&&◌, not, eqb, ltb};
ghost use Rattle.base.specs.Faults.{fault_number};
ghost use Rattle.resolver.specs.Resolved.{Faulted, fault_told};
ghost use Rattle.declarations.specs.Decls.{index_of};
ghost use Rattle.machine.specs.Bytes.{count};
ghost use Rattle.symbols.specs.Index.{Kept};
ghost use Rattle.symbols.specs.Rows.{held, number_of};
ghost use Rattle.symbols.specs.Search.{part};
ghost use Rattle.partwriter.specs.Put.{Puts};
ghost use Rattle.words.specs.Words.{words_at};
ghost use Rattle.partrules.specs.Calls.{call_by, calls_from, is_last, signs, called};
ghost use Rattle.partrules.specs.Marks.{mark_by, turn_cells, Turned};
ghost use Rattle.partrules.specs.Opened.{marked, marking, taken_by, done_told, RuleRead, RuleDone, RulesDone};
ghost use Rattle.partrules.specs.Words.{TypePut, HeadPut, RulePut};

use base::{Fault, Refusal};
use resolver::Scope;
use scanner::WordAt;

// Where a pass over cells stands: the last first cell, how many cells are left behind it, and what the last cell became.
#[derive(Clone, Copy, Debug, PartialEq, Eq)]
pub struct Pass {
    pub first: u16,
    pub left: usize,
    pub cell: u16,
}

// A part in the text at hand: how many declarations the rows hold, the number of its first pair, and how much further on it stands.
#[derive(Clone, Copy, Debug, PartialEq, Eq)]
pub struct Part {
    pub n: usize,
    pub first: usize,
    pub moved: usize,
}

// fault 0: there are `rules` rules, and `count` words. Else the fault's number and its word.
#[derive(Clone, Copy, Debug, PartialEq, Eq)]
pub struct Rules {
    pub fault: u16,
    pub at: usize,
    pub len: usize,
    pub count: usize,
    pub rules: usize,
}

// A rule that was read up to the place `at`, and how many cells or words there are.
#[derive(Clone, Copy, Debug, PartialEq, Eq)]
pub struct Read {
    pub at: usize,
    pub count: usize,
}

// A place in the text, and how many words there are.
#[derive(Clone, Copy, Debug, PartialEq, Eq)]
pub struct Spot {
    pub at: usize,
    pub count: usize,
}

// The mark of the rule i: 0 for the rule of a name, 1 and the pair's place for the rules of a pair, pairs being numbered from `first` on.
fn mark_of(i: u16, first: usize) -> u16
    requires { 0 < first }
    ensures { result ≡ mark_by first i }
{
    let n = usize::from(i);
    if n < first {
        0
    } else {
        (1 + (n - first)) as u16
    }
}

// The next cell, x.
fn turn(spot: Pass, x: u16, first: usize) -> Pass
    requires { 0 < first }
    ensures { Turned (mark_by first) spot x result }
{
    if spot.left == 0 {
        return Pass {
            first: x,
            left: linker::count_behind(x),
            cell: x,
        };
    }
    let cell = if linker::is_call(spot.first) {
        mark_of(x, first)
    } else {
        x
    };
    Pass {
        left: spot.left - 1,
        cell,
        ..spot
    }
}

// The cells as words, with marks in place of the numbers of calls.
pub fn put_marked(cells: &[u16], first: usize, object: &mut [u8], c: usize) -> usize
    requires { 0 < first }
    ensures { Puts object.old c (turn_cells (mark_by first) cells.now) object.new result }
{
    let mut m = partwriter::counted(object, c);
    let mut spot = Pass {
        first: 0,
        left: 0,
        cell: 0,
    };
    for cell in cells {
        spot = turn(spot, *cell, first);
        m = partwriter::put(object, m, spot.cell);
    }
    m
}

// Calls

// The word is `;`, or there is none.
fn is_last(kind: u16) -> bool
    ensures { result ≡ is_last kind }
{
    kind == words::SEMICOLON || kind < words::FIRST_WORD
}

// One for `@`.
fn sign(kind: u16) -> usize
    ensures { result ≡ signs kind }
{
    usize::from(kind == words::AT)
}

// How many words stand after `@` from the place `at` on, up to the rule's `;`.
pub fn count_calls(text: &[u8], at: usize) -> usize
    requires { at ≤ length text.now }
    ensures { (result ≡ length (calls_from (words_at text.now at))) × (result + at ≤ length text.now) }
{
    let mut p = at;
    let mut n = 0;
    // no range: what is read says where the next begins
    loop {
        let w = scanner::next_word(text, p);
        if is_last(w.kind) {
            return n;
        }
        n += sign(w.kind);
        p = w.next;
    }
}

// The call that the word w makes.
fn put_call(text: &[u8], w: WordAt, moved: usize, object: &mut [u8], c: usize) -> usize
    requires { (w.next ≤ length text.now) × (length text.now < 65536) }
    ensures { Puts object.old c (called moved (call_by w.kind (words_at text.now w.next))) object.new result }
{
    if w.kind == words::AT {
        let name = scanner::next_word(text, w.next);
        partwriter::put_name(object, c, text, name, moved)
    } else {
        partwriter::counted(object, c)
    }
}

// The words after `@` from the place `at` on, up to the rule's `;`.
pub fn put_calls(text: &[u8], at: usize, moved: usize, object: &mut [u8], c: usize) -> usize
    requires { (at ≤ length text.now) × (length text.now < 65536) }
    ensures { Puts object.old c (called moved (calls_from (words_at text.now at))) object.new result }
{
    let mut p = at;
    let mut n = partwriter::counted(object, c);
    // no range: what is read says where the next begins
    loop {
        let w = scanner::next_word(text, p);
        if is_last(w.kind) {
            return n;
        }
        n = put_call(text, w, moved, object, n);
        p = w.next;
    }
}

// One rule

// The type of a rule, from behind its name: 0, or 1 and its name. Its colon is passed.
fn put_type(text: &[u8], at: usize, moved: usize, object: &mut [u8], c: usize) -> Spot
    requires { (at ≤ length text.now) × (length text.now < 65536) }
    ensures { TypePut text.now at moved object.old c object.new result }
{
    let g = scanner::next_word(text, at);
    if g.kind != words::TWICE {
        let count = partwriter::put(object, c, 0);
        return Spot { at: g.next, count };
    }
    let w = scanner::next_word(text, g.next);
    let n = partwriter::put(object, c, 1);
    let count = partwriter::put_name(object, n, text, w, moved);
    let d = scanner::next_word(text, w.next);
    Spot { at: d.next, count }
}

// The head of a rule: its name and its type.
fn put_head(text: &[u8], at: usize, moved: usize, object: &mut [u8], c: usize) -> Spot
    requires { (at ≤ length text.now) × (length text.now < 65536) }
    ensures { HeadPut text.now at moved object.old c object.new result }
{
    let w = scanner::next_word(text, at);
    let n = partwriter::put_name(object, c, text, w, moved);
    put_type(text, w.next, moved, object, n)
}

// The rule at the place `at`, which has these cells: its name, its type, its calls, its cells with marks.
pub fn put_rule(
    text: &[u8],
    at: usize,
    part: Part,
    cells: &[u16],
    object: &mut [u8],
    c: usize,
) -> usize
    requires { (at ≤ length text.now) × (length text.now < 65536) × (length cells.now < 65536) × (0 < part.first) }
    ensures { RulePut text.now at part.moved part.first cells.now object.old c object.new result }
{
    let h = put_head(text, at, part.moved, object, c);
    let m = count_calls(text, h.at);
    let d = partwriter::put(object, h.count, m as u16);
    let e = put_calls(text, h.at, part.moved, object, d);
    let f = partwriter::put(object, e, cells.len() as u16);
    put_marked(cells, part.first, object, f)
}

fn refused(fault: Fault, w: WordAt) -> Refusal
    ensures { Faulted (fault_number fault) w.start w.len (fault_told result) }
{
    Refusal {
        fault,
        at: w.start,
        len: w.len,
    }
}

// The byte of row i is not 0.
fn is_marked(seen: &[u8], i: usize) -> bool
    ensures { result ≡ not (eqb (get_or seen.now i 0) 0) }
{
    seen.get(i).copied().unwrap_or(0) != 0
}

// An operation has the name, or a rule of the part before.
fn is_taken(text: &[u8], rows: &[u16], n: usize, seen: &[u8], w: WordAt) -> bool
    requires { Kept text.now rows.now n × (length seen.now ≤ 65536) }
    ensures { result ≡ taken_by (held text.now rows.now n) seen.now (part text.now w.start w.len) }
{
    if symbols::has_row(text, rows, n, symbols::OPERATION, w.start, w.len) {
        return true;
    }
    match symbols::find_row(text, rows, n, symbols::RULE, w.start, w.len) {
        Some(i) => is_marked(seen, i),
        None => false,
    }
}

// A choice rule that goes past its end.
fn goes_past(class: usize, past: bool) -> bool
    ensures { result ≡ (ltb 0 class && past) }
{
    0 < class && past
}

// The rule at the place `at`, resolved: its cells from the start on.
fn read_rule(
    text: &[u8],
    rows: &[u16],
    n: usize,
    at: usize,
    seen: &[u8],
    cells: &mut [u16],
) -> Result<Read, Refusal>
    requires { (at ≤ length text.now) × Kept text.now rows.now n × (length seen.now ≤ 65536) }
    ensures { RuleRead text.now rows.now n at seen.now cells.old cells.new (done_told result) }
{
    let w = scanner::next_word(text, at);
    if is_taken(text, rows, n, seen, w) {
        return Err(refused(Fault::Repeated, w));
    }
    let h = builder::read_type(text, rows, n, w.next)?;
    let scope = Scope {
        n,
        inside: false,
        class: h.class,
    };
    let b = builder::build_actions(text, rows, scope, h.at, cells, 0)?;
    let s = scanner::next_word(text, b.at);
    if goes_past(h.class, b.past) {
        return Err(refused(Fault::WrongReturn, s));
    }
    Ok(Read {
        at: s.next,
        count: b.count,
    })
}

// The row of the rule of the name w is marked.
fn mark(text: &[u8], rows: &[u16], n: usize, w: WordAt, seen: &mut [u8])
    requires { Kept text.now rows.now n × (length seen.old ≤ 65536) }
    ensures { seen.new ≡ marking seen.old (index_of 7 (part text.now w.start w.len) 0 (held text.now rows.now n)) }
{
    if let Some(i) = symbols::find_row(text, rows, n, symbols::RULE, w.start, w.len) {
        if i < seen.len() {
            seen[i] = 1;
        }
    }
}

// The rule at the spot: its words appended, its row marked.
pub fn open_rule(
    text: &[u8],
    rows: &[u16],
    part: Part,
    spot: Spot,
    seen: &mut [u8],
    cells: &mut [u16],
    object: &mut [u8],
) -> Result<Read, Refusal>
    requires { (spot.at ≤ length text.now) × (length text.now < 65536) × Kept text.now rows.now part.n × (part.n ≤ length seen.old) × (length seen.old ≤ 65536) × (length cells.old < 65536) × (0 < part.first) }
    ensures { RuleDone text.now rows.now part.n part.first part.moved spot.at seen.old cells.old object.old spot.count seen.new object.new (done_told result) }
{
    let at = spot.at;
    let d = read_rule(text, rows, part.n, at, seen, cells)?;
    let size = d.count.min(cells.len());
    let c = put_rule(text, at, part, &cells[..size], object, spot.count);
    let w = scanner::next_word(text, at);
    mark(text, rows, part.n, w, seen);
    Ok(Read { at: d.at, count: c })
}

// The rules

fn failed(e: Refusal) -> Rules
    ensures { (result.fault ≡ fault_number e.fault) × (result.at ≡ e.at) × (result.len ≡ e.len) }
{
    Rules {
        fault: u16::from(e.fault),
        at: e.at,
        len: e.len,
        count: 0,
        rules: 0,
    }
}

fn finished(d: Read, rules: usize) -> Rules
    ensures { (result.fault ≡ 0) × (result.rules ≡ rules) × (result.count ≡ d.count) }
{
    Rules {
        fault: 0,
        at: d.at,
        len: 0,
        count: d.count,
        rules,
    }
}

// The rules from the spot on, up to a word that is no name: their words appended, their rows marked.
pub fn open_rules(
    text: &[u8],
    rows: &[u16],
    part: Part,
    spot: Spot,
    seen: &mut [u8],
    cells: &mut [u16],
    object: &mut [u8],
) -> Rules
    requires { (spot.at ≤ length text.now) × (length text.now < 65536) × Kept text.now rows.now part.n × (part.n ≤ length seen.old) × (length seen.old ≤ 65536) × (length cells.old < 65536) × (0 < part.first) }
    ensures { RulesDone text.now rows.now part.n part.first part.moved 0 spot.at (length cells.old) seen.old object.old spot.count object.new result }
{
    let mut here = spot;
    let mut k: usize = 0;
    // no range: what is read says where the next begins
    loop {
        let d = match open_rule(text, rows, part, here, seen, cells, object) {
            Ok(d) => d,
            Err(e) => return failed(e),
        };
        let next = k + 1;
        let w = scanner::next_word(text, d.at);
        if w.kind != words::NAME {
            return finished(d, next);
        }
        if next == base::RULES {
            return failed(Refusal {
                fault: Fault::NotAllowed,
                at: d.at,
                len: 0,
            });
        }
        here.at = d.at;
        here.count = d.count;
        k = next;
    }
}
