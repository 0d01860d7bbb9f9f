// The second pass over a text that the syntax pass has accepted: its declarations into rows of numbers. Nothing is checked here; on any other text
// each function ends and keeps inside its buffers.
#![tactic(auto)]

ghost use Rattle.std.specs.Prelude.{◌≡◌, ◌+◌, ◌-◌, ◌≤◌, ◌<◌, length};
ghost use Rattle.grammar.specs.Derived.{SpellingIn, GivesIn, TakesIn, EntriesIn, ListedIn, SectionIn};
ghost use Rattle.reader.specs.Counting.{count_of, one_more};
ghost use Rattle.syntax.specs.Sections.{first_of};
ghost use Rattle.words.specs.Words.{words_at};
ghost use Rattle.collector.specs.Collecting.{Small, set_two, set_words, Puts, part_of, Reads, Counts, AHead, AnEntry, SomeEntries, AnOperation, SomeOperations, class_of, strings_of, first_value, with_top, ListedSection, TokensIn, TypeIn, MechanismIn, OperatorsSectionIn, ASection, SomeSections, Skips, ARule, SomeRules, Collects};

use reader::{Seen, count_of, look, number_of, one_more};
use scanner::WordAt;

// The first numbers of operations, by kind: updates, updates with a parameter, choices, choices with a parameter.
const UPDATE: usize = base::UPDATE as usize;

const UPDATE_WITH: usize = base::UPDATE_WITH as usize;

const ASK: usize = base::ASK as usize;

const ASK_WITH: usize = base::ASK_WITH as usize;

// The place of the last operation of a kind, from 0.
const LAST_OF_KIND: usize = base::OPERATIONS - 1;

// How many rows there are, the row of the first rule, the place of the first rule's name.
#[derive(Clone, Copy, Debug, PartialEq, Eq)]
pub struct Collected {
    pub count: usize,
    pub rules: usize,
    pub at: usize,
}

// A word of the text.
#[derive(Clone, Copy, Debug, PartialEq, Eq)]
pub struct Part {
    pub start: usize,
    pub len: usize,
}

// What the rows say where there is no word.
const NO_PART: Part = Part { start: 0, len: 0 };

impl From<WordAt> for Part {
    ghost from_gives = { λ w part. part ≡ part_of w };

    fn from(w: WordAt) -> Part {
        Part {
            start: w.start,
            len: w.len,
        }
    }
}

// A declaration: a word that is not there is none.

#[derive(Clone, Copy, Debug, PartialEq, Eq)]
pub struct Row {
    pub class: usize,
    pub value: usize,
    pub name: Part,
    pub second: Option<Part>,
    pub third: Option<Part>,
}

// A value, and the place behind it.
#[derive(Clone, Copy, Debug, PartialEq, Eq)]
pub struct Valued {
    pub value: usize,
    pub at: usize,
}

// An operation's name, its types, and the place behind it.
#[derive(Clone, Copy, Debug, PartialEq, Eq)]
pub struct Head {
    pub name: Part,
    pub second: Option<Part>,
    pub third: Option<Part>,
    pub at: usize,
}

// The place behind what was read, and the rows in use.
#[derive(Clone, Copy, Debug, PartialEq, Eq)]
pub struct Spot {
    pub at: usize,
    pub count: usize,
}

// An entry: and its value.
#[derive(Clone, Copy, Debug, PartialEq, Eq)]
pub struct Entered {
    pub at: usize,
    pub count: usize,
    pub value: usize,
}

// Entries: and one above the greatest value.
#[derive(Clone, Copy, Debug, PartialEq, Eq)]
pub struct Entries {
    pub at: usize,
    pub count: usize,
    pub top: usize,
}

// Operations: and the counts of each kind.
#[derive(Clone, Copy, Debug, PartialEq, Eq)]
pub struct Operated {
    pub at: usize,
    pub count: usize,
    pub seen: Seen,
}

// One above the greatest value of each class so far, and the counts of each kind of operation.
#[derive(Clone, Copy, Debug, PartialEq, Eq)]
pub struct State {
    pub input: usize,
    pub output: usize,
    pub error: usize,
    pub seen: Seen,
}

// What a section of entries lists.
#[derive(Clone, Copy, Debug, PartialEq, Eq)]
pub enum Listed {
    Inputs,
    Outputs,
    Both,
    Errors,
}

// A section: and the state after it.
#[derive(Clone, Copy, Debug, PartialEq, Eq)]
pub struct Sectioned {
    pub at: usize,
    pub count: usize,
    pub state: State,
}

// Rows

fn put_two(rows: &mut [u16], k: usize, a: u16, b: u16)
    requires { k + 2 ≤ length rows.old }
    ensures { rows.new ≡ set_two rows.old k a b }
{
    rows[k] = a;
    rows[k + 1] = b;
}

pub fn put_part(rows: &mut [u16], k: usize, p: Part)
    requires { (k + 2 ≤ length rows.old) × (p.start + p.len ≤ 65535) }
    ensures { rows.new ≡ set_two rows.old k p.start p.len }
{
    put_two(rows, k, p.start as u16, p.len as u16);
}

// The words of the row that begins at k.
fn put_words(rows: &mut [u16], k: usize, d: Row)
    requires { (k + 8 ≤ length rows.old) × Small d }
    ensures { rows.new ≡ set_words rows.old k d }
{
    put_part(rows, k + symbols::NAME_START, d.name);
    put_part(rows, k + symbols::SECOND_START, d.second.unwrap_or(NO_PART));
    put_part(rows, k + symbols::THIRD_START, d.third.unwrap_or(NO_PART));
}

// Row i is written, if it has its place: one more row.
pub fn put_row(rows: &mut [u16], i: usize, d: Row) -> usize
    requires { (i ≤ 512) × Small d }
    ensures { Puts rows.old rows.new i result d }
{
    let k = symbols::ROW * i;
    if i == base::NAMES || rows.len() < k + symbols::ROW {
        return i;
    }
    put_two(rows, k, d.class as u16, d.value as u16);
    put_words(rows, k, d);
    i + 1
}

// Words that may be there, each with the place behind it

// An entry's string, where it may have one.
fn read_spelling(text: &[u8], at: usize, strings: bool) -> (Option<Part>, usize)
    requires { at ≤ length text.now }
    ensures { Reads (SpellingIn strings (words_at text.now at)) text.now at 259 result }
{
    if strings {
        let w = look(text, at);
        if w.kind == words::STRING {
            return (Some(Part::from(w)), w.next);
        }
    }
    (None, at)
}

// The type after `>>`, where there is one.
fn read_gives(text: &[u8], at: usize) -> (Option<Part>, usize)
    requires { at ≤ length text.now }
    ensures { Reads (GivesIn (words_at text.now at)) text.now at 257 result }
{
    let w = look(text, at);
    if w.kind == words::TWICE {
        let t = look(text, w.next);
        (Some(Part::from(t)), t.next)
    } else {
        (None, at)
    }
}

// A parameter's type in parentheses, where there is one.
fn read_takes(text: &[u8], at: usize) -> (Option<Part>, usize)
    requires { at ≤ length text.now }
    ensures { Reads (TakesIn (words_at text.now at)) text.now at 257 result }
{
    let w = look(text, at);
    if w.kind == words::OPENING {
        let t = look(text, w.next);
        let c = look(text, t.next);
        (Some(Part::from(t)), c.next)
    } else {
        (None, at)
    }
}

// Values

// The value set by a number, or v: at most 65,535.
fn read_count(text: &[u8], at: usize, v: usize) -> Valued
    requires { at ≤ length text.now }
    ensures { Counts text.now at v result }
{
    let w = look(text, at);
    if w.kind == words::EQUALS {
        let d = look(text, w.next);
        Valued {
            value: number_of(text, d.start, d.len).min(base::GREATEST_VALUE),
            at: d.next,
        }
    } else {
        Valued {
            value: v.min(base::GREATEST_VALUE),
            at,
        }
    }
}

// Entries

fn collect_entry(
    text: &[u8],
    at: usize,
    rows: &mut [u16],
    count: usize,
    class: usize,
    strings: bool,
    v: usize,
) -> Entered
    requires { (at ≤ length text.now) × (length text.now ≤ 65535) × (count ≤ 512) × (class ≤ 65535) × (class ≡ 6 → ⊥) }
    ensures { AnEntry text.now rows.old rows.new at count class strings v result }
{
    let w = look(text, at);
    let (second, behind) = read_spelling(text, w.next, strings);
    let n = read_count(text, behind, v);
    let d = Row {
        class,
        value: n.value,
        name: Part::from(w),
        second,
        third: None,
    };
    let c = put_row(rows, count, d);
    Entered {
        at: n.at,
        count: c,
        value: n.value,
    }
}

// Entries to the semicolon, counting from v.
fn collect_entries(
    text: &[u8],
    at: usize,
    rows: &mut [u16],
    count: usize,
    class: usize,
    strings: bool,
    v: usize,
) -> Entries
    requires { (at ≤ length text.now) × (length text.now ≤ 65535) × (count ≤ 512) × (class ≤ 65535) × (class ≡ 6 → ⊥) }
    ensures { SomeEntries (EntriesIn strings v (words_at text.now at)) text.now rows.old rows.new at count class 0 result }
{
    let mut i = at;
    let mut n = count;
    let mut next = v;
    let mut most: usize = 0;
    // no range: what is read says where the next begins
    loop {
        let e = collect_entry(text, i, rows, n, class, strings, next);
        let m = e.value + 1;
        let top = most.max(m);
        let w = look(text, e.at);
        let count = e.count;
        if w.kind == words::SEMICOLON {
            let at = w.next;
            return Entries { at, count, top };
        }
        if e.at <= i {
            let at = e.at;
            return Entries { at, count, top };
        }
        i = e.at;
        n = count;
        next = m;
        most = top;
    }
}

// A colon and entries.
fn collect_listed(
    text: &[u8],
    at: usize,
    rows: &mut [u16],
    count: usize,
    class: usize,
    strings: bool,
    v: usize,
) -> Entries
    requires { (at ≤ length text.now) × (length text.now ≤ 65535) × (count ≤ 512) × (class ≤ 65535) × (class ≡ 6 → ⊥) }
    ensures { SomeEntries (ListedIn strings v (words_at text.now at)) text.now rows.old rows.new at count class 0 result }
{
    let c = look(text, at);
    collect_entries(text, c.next, rows, count, class, strings, v)
}

// Operations

// The first number of a kind.
fn first_of(takes: bool, gives: bool) -> usize
    ensures { (result ≡ first_of takes gives) × (result ≤ 1024) }
{
    match (takes, gives) {
        (true, true) => ASK_WITH,
        (true, false) => UPDATE_WITH,
        (false, true) => ASK,
        (false, false) => UPDATE,
    }
}

// The next number of a kind, which has at most 256.
fn next_number(seen: Seen, takes: bool, gives: bool) -> usize
    ensures { (result ≤ 65535) × (count_of seen takes gives ≤ 255 → result ≡ first_of takes gives + count_of seen takes gives) }
{
    let n = count_of(seen, takes, gives);
    if n <= LAST_OF_KIND {
        first_of(takes, gives) + n
    } else {
        0
    }
}

fn with_one(seen: Seen, takes: bool, gives: bool) -> Seen
    ensures { count_of seen takes gives ≤ 255 → result ≡ one_more seen takes gives }
{
    if count_of(seen, takes, gives) <= LAST_OF_KIND {
        one_more(seen, takes, gives)
    } else {
        seen
    }
}

fn read_head(text: &[u8], at: usize) -> Head
    requires { at ≤ length text.now }
    ensures { AHead text.now at result }
{
    let w = look(text, at);
    let (second, behind) = read_takes(text, w.next);
    let (third, at) = read_gives(text, behind);
    Head {
        name: Part::from(w),
        second,
        third,
        at,
    }
}

fn collect_operation(text: &[u8], at: usize, rows: &mut [u16], count: usize, seen: Seen) -> Operated
    requires { (at ≤ length text.now) × (length text.now ≤ 65535) × (count ≤ 512) }
    ensures { AnOperation text.now rows.old rows.new at count seen result }
{
    let h = read_head(text, at);
    let takes = h.second.is_some();
    let gives = h.third.is_some();
    let value = next_number(seen, takes, gives);
    let d = Row {
        class: symbols::OPERATION,
        value,
        name: h.name,
        second: h.second,
        third: h.third,
    };
    let c = put_row(rows, count, d);
    let s = with_one(seen, takes, gives);
    Operated {
        at: h.at,
        count: c,
        seen: s,
    }
}

// Operations to the semicolon.
fn collect_operations(
    text: &[u8],
    at: usize,
    rows: &mut [u16],
    count: usize,
    seen: Seen,
) -> Operated
    requires { (at ≤ length text.now) × (length text.now ≤ 65535) × (count ≤ 512) }
    ensures { SomeOperations text.now rows.old rows.new at count seen result }
{
    let mut i = at;
    let mut n = count;
    let mut counts = seen;
    // no range: what is read says where the next begins
    loop {
        let o = collect_operation(text, i, rows, n, counts);
        let w = look(text, o.at);
        if w.kind == words::SEMICOLON {
            return Operated { at: w.next, ..o };
        }
        if o.at <= i {
            return o;
        }
        i = o.at;
        n = o.count;
        counts = o.seen;
    }
}

// Sections

fn class_of(listed: Listed) -> usize
    ensures same { result ≡ class_of listed }
    ensures low { result ≤ 4 }
{
    match listed {
        Listed::Inputs => symbols::INPUT,
        Listed::Outputs => symbols::OUTPUT,
        Listed::Both => symbols::BOTH,
        Listed::Errors => symbols::ERROR,
    }
}

// Such entries may have strings.
fn strings_of(listed: Listed) -> bool
    ensures { result ≡ strings_of listed }
{
    match listed {
        Listed::Inputs | Listed::Outputs | Listed::Both => true,
        Listed::Errors => false,
    }
}

// The value from which such entries are counted.
fn first_value(listed: Listed, state: State) -> usize
    ensures { result ≡ first_value listed state.input state.output state.error }
{
    match listed {
        Listed::Inputs => state.input,
        Listed::Outputs => state.output,
        Listed::Both => state.input.max(state.output),
        Listed::Errors => state.error,
    }
}

// The state after such entries, `top` being one above their greatest value.
fn with_top(listed: Listed, state: State, top: usize) -> State
    ensures { result ≡ with_top listed state top }
{
    let input = state.input.max(top);
    let output = state.output.max(top);
    match listed {
        Listed::Inputs => State { input, ..state },
        Listed::Outputs => State { output, ..state },
        Listed::Both => State {
            input,
            output,
            ..state
        },
        Listed::Errors => State {
            error: state.error.max(top),
            ..state
        },
    }
}

// A section of entries after its head.
fn collect_group(
    text: &[u8],
    at: usize,
    rows: &mut [u16],
    count: usize,
    state: State,
    listed: Listed,
) -> Sectioned
    requires { (at ≤ length text.now) × (length text.now ≤ 65535) × (count ≤ 512) }
    ensures { ASection (ListedSection listed) text.now rows.old rows.new at count state result }
{
    let v = first_value(listed, state);
    let class = class_of(listed);
    let e = collect_listed(text, at, rows, count, class, strings_of(listed), v);
    Sectioned {
        at: e.at,
        count: e.count,
        state: with_top(listed, state, e.top),
    }
}

// An input section, or one of inputs and outputs, after its word `input`.
fn collect_tokens(text: &[u8], at: usize, rows: &mut [u16], count: usize, state: State) -> Sectioned
    requires { (at ≤ length text.now) × (length text.now ≤ 65535) × (count ≤ 512) }
    ensures { ASection TokensIn text.now rows.old rows.new at count state result }
{
    let w = look(text, at);
    if w.kind == words::OUTPUT {
        collect_group(text, w.next, rows, count, state, Listed::Both)
    } else {
        collect_group(text, at, rows, count, state, Listed::Inputs)
    }
}

// A type section after its word `type`: the members' class is the type's row.
fn collect_type(text: &[u8], at: usize, rows: &mut [u16], count: usize, state: State) -> Sectioned
    requires { (at ≤ length text.now) × (length text.now ≤ 65535) × (count ≤ 512) }
    ensures { ASection TypeIn text.now rows.old rows.new at count state result }
{
    let w = look(text, at);
    let d = Row {
        class: symbols::TYPE,
        value: 0,
        name: Part::from(w),
        second: None,
        third: None,
    };
    let c = put_row(rows, count, d);
    let e = collect_listed(text, w.next, rows, c, symbols::VALUES + count, false, 0);
    Sectioned {
        at: e.at,
        count: e.count,
        state,
    }
}

// A section of operations after its head.
fn collect_mechanism(
    text: &[u8],
    at: usize,
    rows: &mut [u16],
    count: usize,
    state: State,
) -> Sectioned
    requires { (at ≤ length text.now) × (length text.now ≤ 65535) × (count ≤ 512) }
    ensures { ASection MechanismIn text.now rows.old rows.new at count state result }
{
    let n = look(text, at);
    let c = look(text, n.next);
    let o = collect_operations(text, c.next, rows, count, state.seen);
    let after = State {
        seen: o.seen,
        ..state
    };
    Sectioned {
        at: o.at,
        count: o.count,
        state: after,
    }
}

// The place behind the next semicolon.
fn behind_semicolon(text: &[u8], at: usize) -> usize
    requires { at ≤ length text.now }
    ensures { Skips text.now at result }
{
    let mut i = at;
    // no range: what is read says where the next begins
    loop {
        let w = look(text, i);
        if w.kind == words::SEMICOLON {
            return w.next;
        }
        if w.kind <= words::LAST {
            return i;
        }
        i = w.next;
    }
}

// A section of operators after its word `operators`: a row for its name, which has the place of its first entry.
fn collect_operators(
    text: &[u8],
    at: usize,
    rows: &mut [u16],
    count: usize,
    state: State,
) -> Sectioned
    requires { (at ≤ length text.now) × (length text.now ≤ 65535) × (count ≤ 512) }
    ensures { ASection OperatorsSectionIn text.now rows.old rows.new at count state result }
{
    let w = look(text, at);
    let colon = look(text, w.next);
    let first = look(text, colon.next);
    let d = Row {
        class: symbols::OPERATORS,
        value: first.start,
        name: Part::from(w),
        second: None,
        third: None,
    };
    let c = put_row(rows, count, d);
    let to = behind_semicolon(text, colon.next);
    Sectioned {
        at: to,
        count: c,
        state,
    }
}

fn collect_section(
    text: &[u8],
    at: usize,
    rows: &mut [u16],
    count: usize,
    state: State,
) -> Sectioned
    requires { (at ≤ length text.now) × (length text.now ≤ 65535) × (count ≤ 512) }
    ensures { ASection SectionIn text.now rows.old rows.new at count state result }
{
    let w = look(text, at);
    match w.kind {
        words::INPUT => collect_tokens(text, w.next, rows, count, state),
        words::OUTPUT => collect_group(text, w.next, rows, count, state, Listed::Outputs),
        words::ERROR => collect_group(text, w.next, rows, count, state, Listed::Errors),
        words::TYPE => collect_type(text, w.next, rows, count, state),
        words::NAME => collect_operators(text, w.next, rows, count, state),
        _ => collect_mechanism(text, w.next, rows, count, state),
    }
}

// Sections up to the word `rules`.
pub fn collect_sections(
    text: &[u8],
    at: usize,
    rows: &mut [u16],
    count: usize,
    state: State,
) -> Spot
    requires { (at ≤ length text.now) × (length text.now ≤ 65535) × (count ≤ 512) }
    ensures { SomeSections text.now rows.old rows.new at count state result }
{
    let mut i = at;
    let mut n = count;
    let mut sofar = state;
    // no range: what is read says where the next begins
    loop {
        let w = look(text, i);
        if w.kind == words::RULES {
            return Spot { at: i, count: n };
        }
        let x = collect_section(text, i, rows, n, sofar);
        if x.at <= i {
            return Spot {
                at: x.at,
                count: x.count,
            };
        }
        i = x.at;
        n = x.count;
        sofar = x.state;
    }
}

// Rules

// The rule of the place k.
pub fn collect_rule(text: &[u8], at: usize, rows: &mut [u16], count: usize, k: usize) -> Spot
    requires { (at ≤ length text.now) × (length text.now ≤ 65535) × (count ≤ 512) × (k ≤ 512) }
    ensures { ARule text.now rows.old rows.new at count k result }
{
    let w = look(text, at);
    let (third, behind) = read_gives(text, w.next);
    let d = Row {
        class: symbols::RULE,
        value: k,
        name: Part::from(w),
        second: None,
        third,
    };
    let c = put_row(rows, count, d);
    let to = behind_semicolon(text, behind);
    Spot { at: to, count: c }
}

// The rules, the first of them being row `count`.
fn collect_rules(text: &[u8], at: usize, rows: &mut [u16], count: usize) -> usize
    requires { (at ≤ length text.now) × (length text.now ≤ 65535) × (count ≤ 512) }
    ensures { SomeRules text.now rows.old rows.new at count 0 result }
{
    let mut i = at;
    let mut n = count;
    // no range: what is read says where the next begins
    loop {
        let r = collect_rule(text, i, rows, n, n - count);
        let w = look(text, r.at);
        if w.kind != words::NAME || r.at <= i {
            return r.count;
        }
        i = r.at;
        n = r.count;
    }
}

// The declarations of a program into rows of eight numbers: at most 512 rows, as many as have their place.
pub fn collect(text: &[u8], rows: &mut [u16]) -> Collected
    requires { length text.now ≤ 65535 }
    ensures { Collects text.now rows.old rows.new result }
{
    let seen = Seen {
        plain: 0,
        taking: 0,
        giving: 0,
        both: 0,
    };
    let state = State {
        input: 0,
        output: 0,
        error: 0,
        seen,
    };
    let s = collect_sections(text, 0, rows, 0, state);
    let h = look(text, s.at);
    let count = collect_rules(text, h.next, rows, s.count);
    Collected {
        count,
        rules: s.count,
        at: h.next,
    }
}
