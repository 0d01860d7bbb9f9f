// The syntax pass: faults 1, 2 and 9, by reading the text word by word. Nothing is kept but places and counts.
#![tactic(auto)]

ghost use Rattle.std.specs.Prelude.{List, ◌≡◌, ℕ, ◌+◌, ◌-◌, ◌≤◌, ◌<◌, max, min, length, take, drop, eqb, ◌&&◌};
ghost use Rattle.syntax.specs.Actions.{a_constant, a_value, a_plain, a_selector, some_labels, closes, a_cycle, a_choice, an_otherwise, actions, alternatives};
ghost use Rattle.syntax.specs.Reading.{expect, a_name, name_or_string, optional};
ghost use Rattle.base.specs.Faults.{fault_number};
ghost use Rattle.reader.specs.Answers.{Here, Reads, Moves, Faulty, refusal, out, done, failing};
ghost use Rattle.reader.specs.Parts.{with_constant, one_action, OneLabel, SomeLabels, ALabelled, ARanked};
ghost use Rattle.reader.specs.Texts.{AHead, Shares, SettlesCommon, SettlesPart, unless_long};
ghost use Rattle.reader.specs.Counting.{OneName, NumberOf, ANumber, Sure, AnEntry, SomeEntries, ListedEntries, count_of, one_more, told_kind, full_in, AnOperation, SomeOperations, ASection, output_section, error_section, type_section, SomeSections, ARule, ending, Decides, Keeps};
ghost use Rattle.syntax.specs.Sections.{nothing, a_spelling, entries, kind_ahead, a_parameter, token_section, a_section, a_level, a_side, an_operator, some_operators, operator_section, mechanism_section, other_section};
ghost use Rattle.base.specs.Common.{same, bytes};
ghost use Rattle.syntax.specs.Parse.{some_rules, program, parse};
ghost use Rattle.syntax.specs.Texts.{some_heads, read_common, read_part};
ghost use Rattle.words.specs.Words.{words, words_at};

use base::{Fault, Refusal};
use scanner::WordAt;

// Labels or sections that were read, up to the place `at`, and how many more labels or names may stand.
#[derive(Clone, Copy, Debug, PartialEq, Eq)]
pub struct Counted {
    pub at: usize,
    pub room: usize,
}

// The value of what was read up to the place `at`.
#[derive(Clone, Copy, Debug, PartialEq, Eq)]
pub struct Valued {
    pub at: usize,
    pub value: usize,
}

// Entries that were read up to the place `at`: how many names may still be declared, and one above the greatest value.
#[derive(Clone, Copy, Debug, PartialEq, Eq)]
pub struct Entries {
    pub at: usize,
    pub left: usize,
    pub top: usize,
}

// How many operations there are of each kind: updates, updates with a parameter, choices, choices with a parameter.
#[derive(Clone, Copy, Debug, PartialEq, Eq)]
pub struct Seen {
    pub plain: usize,
    pub taking: usize,
    pub giving: usize,
    pub both: usize,
}

// What the words after an operation's name tell of its kind: whether they do, and if it takes a parameter and gives a value.
#[derive(Clone, Copy, Debug, PartialEq, Eq)]
pub struct Ahead {
    pub known: bool,
    pub takes: bool,
    pub gives: bool,
}

// An operation that was read up to the place `at`, and the counts after it.
#[derive(Clone, Copy, Debug, PartialEq, Eq)]
pub struct Added {
    pub at: usize,
    pub seen: Seen,
}

// Operations that were read up to the place `at`: how many names may still be declared, and the counts.
#[derive(Clone, Copy, Debug, PartialEq, Eq)]
pub struct Operations {
    pub at: usize,
    pub left: usize,
    pub seen: Seen,
}

// What the sections so far leave: names that may still be declared, one above the greatest value of each class, the counts.
#[derive(Clone, Copy, Debug, PartialEq, Eq)]
pub struct State {
    pub left: usize,
    pub input: usize,
    pub output: usize,
    pub error: usize,
    pub seen: Seen,
}

// A section that was read up to the place `at`, and the state after it.
#[derive(Clone, Copy, Debug, PartialEq, Eq)]
pub struct Sectioned {
    pub at: usize,
    pub state: State,
}

// The next word.
pub fn look(text: &[u8], at: usize) -> WordAt
    requires { at ≤ length text.now }
    ensures { Here text.now at result }
{
    scanner::next_word(text, at)
}

fn refused(w: WordAt) -> Refusal
    ensures { Faulty (refusal w.kind) w (failing result) }
{
    let fault = if w.kind == words::BAD {
        Fault::NoWord
    } else {
        Fault::NotAllowed
    };
    Refusal {
        fault,
        at: w.start,
        len: w.len,
    }
}

fn over(w: WordAt) -> Refusal
    ensures { Faulty 9 w (failing result) }
{
    Refusal {
        fault: Fault::OverLimit,
        at: w.start,
        len: w.len,
    }
}

fn expect_word(text: &[u8], at: usize, kind: u16) -> Result<usize, Refusal>
    requires { (at ≤ length text.now) × (2 ≤ kind) }
    ensures { Reads text.now at at (λ _. expect kind) (out result) }
{
    let w = look(text, at);
    if w.kind == kind {
        Ok(w.next)
    } else {
        Err(refused(w))
    }
}

// A word that is to be a name.
fn check_name(w: WordAt) -> Result<usize, Refusal>
    ensures { (text : List ℕ) (at : ℕ) → Here text at w → Moves text at at (λ _. a_name) (out result) }
{
    if w.kind != words::NAME {
        return Err(refused(w));
    }
    if base::WORD_BYTES < w.len {
        return Err(over(w));
    }
    Ok(w.next)
}

fn read_name(text: &[u8], at: usize) -> Result<usize, Refusal>
    requires { at ≤ length text.now }
    ensures { Moves text.now at at (λ _. a_name) (out result) }
{
    let w = look(text, at);
    check_name(w)
}

fn name_or_string(text: &[u8], at: usize) -> Result<usize, Refusal>
    requires { at ≤ length text.now }
    ensures { Moves text.now at at (λ _. name_or_string) (out result) }
{
    let w = look(text, at);
    if w.kind == words::STRING {
        return Ok(w.next);
    }
    check_name(w)
}

fn read_constant(text: &[u8], at: usize) -> Result<usize, Refusal>
    requires { at ≤ length text.now }
    ensures { Reads text.now at at (λ _. a_constant) (out result) }
{
    let w = look(text, at);
    if w.kind != words::OPENING {
        return Ok(at);
    }
    let r = name_or_string(text, w.next)?;
    expect_word(text, r, words::CLOSING)
}

// A name, the word w at the place, and its constant.
fn with_constant(text: &[u8], at: usize, w: WordAt) -> Result<usize, Refusal>
    requires { Here text.now at w }
    ensures { Moves text.now at at (λ _. with_constant) (out result) }
{
    let r = check_name(w)?;
    read_constant(text, r)
}

fn read_value(text: &[u8], at: usize) -> Result<usize, Refusal>
    requires { at ≤ length text.now }
    ensures { Reads text.now at at (λ _. a_value) (out result) }
{
    let w = look(text, at);
    if w.kind == words::NAME {
        return check_name(w);
    }
    if w.kind == words::STRING {
        return Ok(w.next);
    }
    Ok(at)
}

fn read_selector(text: &[u8], at: usize) -> Result<usize, Refusal>
    requires { at ≤ length text.now }
    ensures { Reads text.now at at (λ _. a_selector) (out result) }
{
    let w = look(text, at);
    if w.kind == words::AT {
        return read_name(text, w.next);
    }
    if w.kind == words::NAME {
        return with_constant(text, at, w);
    }
    Ok(at)
}

// The rest of `^`: a section, `@`, a rule.
fn read_ranked(text: &[u8], at: usize) -> Result<usize, Refusal>
    requires { at ≤ length text.now }
    ensures { ARanked text.now at (out result) }
{
    let r = read_name(text, at)?;
    let s = expect_word(text, r, words::AT)?;
    read_name(text, s)
}

// A plain action, whose first word is w.
fn read_plain(text: &[u8], at: usize, w: WordAt) -> Result<usize, Refusal>
    requires { Here text.now at w }
    ensures { Moves text.now at at (λ _. a_plain) (out result) }
{
    let kind = w.kind;
    match kind {
        words::NAME => with_constant(text, at, w),
        words::STRING => read_constant(text, w.next),
        words::QUESTION => Ok(w.next),
        words::POINT => name_or_string(text, w.next),
        words::HASH => name_or_string(text, w.next),
        words::GREATER => Ok(w.next),
        words::AT => read_name(text, w.next),
        words::TWICE => read_value(text, w.next),
        words::CARET => read_ranked(text, w.next),
        _ => Err(refused(w)),
    }
}

// A label where `room` more may stand.
fn read_label(text: &[u8], at: usize, room: usize) -> Result<usize, Refusal>
    requires { at ≤ length text.now }
    ensures { OneLabel text.now at room (out result) }
{
    let w = look(text, at);
    if w.kind == words::STRING {
        if room == 0 {
            return Err(over(w));
        }
        return Ok(w.next);
    }
    if w.kind != words::NAME {
        return Err(refused(w));
    }
    if room == 0 {
        return Err(over(w));
    }
    if base::WORD_BYTES < w.len {
        return Err(over(w));
    }
    Ok(w.next)
}

// Labels up to a word that is no comma.
fn read_labels(text: &[u8], at: usize, room: usize) -> Result<Counted, Refusal>
    requires { at ≤ length text.now }
    ensures { SomeLabels text.now at room result }
{
    let mut i = at;
    let mut left = room;
    // no range: what is read says where the next begins
    loop {
        let r = read_label(text, i, left)?;
        left -= 1;
        let w = look(text, r);
        if w.kind != words::COMMA {
            return Ok(Counted { at: r, room: left });
        }
        i = w.next;
    }
}

pub fn is_closing(kind: u16) -> bool
    ensures { result ≡ closes kind }
{
    matches!(kind, words::SEMICOLON | words::OD | words::FI | words::BAR)
}

#[cycle(read_action_read_actions_read_alternatives_read_choice_read_cycle_read_labelled_read_otherwise)]
fn read_actions(text: &[u8], at: usize, left: usize) -> Result<usize, Refusal>
    requires { at ≤ length text.now }
    ensures { Reads text.now at at (λ k. actions k left) (out result) }
{
    let mut i = at;
    // no range: what is read says where the next begins
    loop {
        let w = look(text, i);
        if is_closing(w.kind) {
            return Ok(i);
        }
        let r = read_action(text, i, w, left)?;
        i = r;
    }
}

// An action, whose first word is w.
#[cycle(read_action_read_actions_read_alternatives_read_choice_read_cycle_read_labelled_read_otherwise)]
fn read_action(text: &[u8], at: usize, w: WordAt, left: usize) -> Result<usize, Refusal>
    requires { Here text.now at w }
    ensures { Moves text.now at (at + 1) (λ k. one_action k left) (out result) }
{
    if w.kind == words::DO {
        if left == 0 {
            return Err(over(w));
        }
        return read_cycle(text, w.next, left - 1);
    }
    if w.kind == words::IF {
        if left == 0 {
            return Err(over(w));
        }
        return read_choice(text, w.next, left - 1);
    }
    read_plain(text, at, w)
}

// The rest of a cycle after its brace.
#[cycle(read_action_read_actions_read_alternatives_read_choice_read_cycle_read_labelled_read_otherwise)]
fn read_cycle(text: &[u8], at: usize, left: usize) -> Result<usize, Refusal>
    requires { at ≤ length text.now }
    ensures { Reads text.now at at (λ k. a_cycle (actions k left)) (out result) }
{
    let r = read_actions(text, at, left)?;
    expect_word(text, r, words::OD)
}

// The rest of a choice after its bracket.
#[cycle(read_action_read_actions_read_alternatives_read_choice_read_cycle_read_labelled_read_otherwise)]
fn read_choice(text: &[u8], at: usize, left: usize) -> Result<usize, Refusal>
    requires { at ≤ length text.now }
    ensures { Reads text.now at at (λ k. a_choice (alternatives k left 64)) (out result) }
{
    let h = read_selector(text, at)?;
    let b = expect_word(text, h, words::BAR)?;
    read_alternatives(text, b, left, base::LABELS)
}

// Alternatives, in a choice where `room` more labels may stand.
#[cycle(read_action_read_actions_read_alternatives_read_choice_read_cycle_read_labelled_read_otherwise)]
fn read_alternatives(text: &[u8], at: usize, left: usize, room: usize) -> Result<usize, Refusal>
    requires { at ≤ length text.now }
    ensures { Reads text.now at at (λ k. alternatives k left room) (out result) }
{
    let mut i = at;
    let mut free = room;
    // no range: what is read says where the next begins
    loop {
        let w = look(text, i);
        if w.kind == words::STAR {
            return read_otherwise(text, w.next, left);
        }
        let l = read_labelled(text, i, left, free)?;
        let s = look(text, l.at);
        if s.kind != words::BAR {
            return expect_word(text, l.at, words::FI);
        }
        i = s.next;
        free = l.room;
    }
}

// The rest of otherwise after its star.
#[cycle(read_action_read_actions_read_alternatives_read_choice_read_cycle_read_labelled_read_otherwise)]
fn read_otherwise(text: &[u8], at: usize, left: usize) -> Result<usize, Refusal>
    requires { at ≤ length text.now }
    ensures { Reads text.now at at (λ k. an_otherwise (actions k left)) (out result) }
{
    let c = expect_word(text, at, words::COLON)?;
    let r = read_actions(text, c, left)?;
    expect_word(text, r, words::FI)
}

// The labels and the actions of an alternative, after its bar.
#[cycle(read_action_read_actions_read_alternatives_read_choice_read_cycle_read_labelled_read_otherwise)]
fn read_labelled(text: &[u8], at: usize, left: usize, room: usize) -> Result<Counted, Refusal>
    requires { at ≤ length text.now }
    ensures { ALabelled text.now at room left result }
{
    let l = read_labels(text, at, room)?;
    let c = expect_word(text, l.at, words::COLON)?;
    let r = read_actions(text, c, left)?;
    Ok(Counted {
        at: r,
        room: l.room,
    })
}

// A name where `left` more may be declared.
fn read_one_name(text: &[u8], at: usize, left: usize) -> Result<usize, Refusal>
    requires { at ≤ length text.now }
    ensures { OneName text.now at left (out result) }
{
    let w = look(text, at);
    if w.kind != words::NAME {
        return Err(refused(w));
    }
    if left == 0 {
        return Err(over(w));
    }
    if base::WORD_BYTES < w.len {
        return Err(over(w));
    }
    Ok(w.next)
}

fn digit_of(b: u8) -> usize
    ensures { (result ≡ b - 48) × (result < 256) }
{
    usize::from(b.saturating_sub(b'0'))
}

// The value of a number's digits, or some number past 65,535 where it is past that.
pub fn number_of(text: &[u8], start: usize, len: usize) -> usize
    requires { start + len ≤ length text.now }
    ensures { NumberOf (take len (drop start text.now)) result }
{
    let mut n = 0;
    for &b in base::part(text, start, len) {
        n = n * 10 + digit_of(b);
        if base::GREATEST_VALUE < n {
            return n;
        }
    }
    n
}

fn read_number(text: &[u8], at: usize) -> Result<Valued, Refusal>
    requires { at ≤ length text.now }
    ensures { ANumber text.now at result }
{
    let w = look(text, at);
    if w.kind != words::NUMBER {
        return Err(refused(w));
    }
    let n = number_of(text, w.start, w.len);
    if base::GREATEST_VALUE < n {
        return Err(over(w));
    }
    Ok(Valued {
        at: w.next,
        value: n,
    })
}

// An entry's string, where it may have one.
fn read_spelling(text: &[u8], at: usize, strings: bool) -> usize
    requires { at ≤ length text.now }
    ensures { Sure text.now at (a_spelling strings) result }
{
    let w = look(text, at);
    if strings && w.kind == words::STRING {
        w.next
    } else {
        at
    }
}

// An entry where `left` more names may be declared and counting stands at v.
fn read_entry(
    text: &[u8],
    at: usize,
    left: usize,
    strings: bool,
    v: usize,
) -> Result<Valued, Refusal>
    requires { at ≤ length text.now }
    ensures { AnEntry text.now at left strings v result }
{
    let w = look(text, at);
    let o = read_one_name(text, at, left)?;
    let s = read_spelling(text, o, strings);
    let e = look(text, s);
    if e.kind == words::EQUALS {
        return read_number(text, e.next);
    }
    if base::GREATEST_VALUE < v {
        return Err(over(w));
    }
    Ok(Valued { at: s, value: v })
}

// Entries to the semicolon, counting from v.
fn read_entries(
    text: &[u8],
    at: usize,
    left: usize,
    strings: bool,
    v: usize,
) -> Result<Entries, Refusal>
    requires { at ≤ length text.now }
    ensures { SomeEntries text.now at left strings v result }
{
    let mut i = at;
    let mut names = left;
    let mut next = v;
    let mut top = 0;
    // no range: what is read says where the next begins
    loop {
        let e = read_entry(text, i, names, strings, next)?;
        names -= 1;
        next = e.value + 1;
        top = top.max(next);
        let w = look(text, e.at);
        if w.kind == words::SEMICOLON {
            return Ok(Entries {
                at: w.next,
                left: names,
                top,
            });
        }
        i = e.at;
    }
}

// A colon and entries.
fn read_listed(
    text: &[u8],
    at: usize,
    left: usize,
    strings: bool,
    v: usize,
) -> Result<Entries, Refusal>
    requires { at ≤ length text.now }
    ensures { ListedEntries text.now at left strings v result }
{
    let c = expect_word(text, at, words::COLON)?;
    read_entries(text, c, left, strings, v)
}

// A parameter's type in parentheses, where there is one.
fn read_parameter(text: &[u8], at: usize) -> Result<usize, Refusal>
    requires { at ≤ length text.now }
    ensures { Reads text.now at at (λ _. a_parameter) (out result) }
{
    let w = look(text, at);
    if w.kind != words::OPENING {
        return Ok(at);
    }
    let r = read_name(text, w.next)?;
    expect_word(text, r, words::CLOSING)
}

// The type after `>>`, where there is one.
fn read_gives(text: &[u8], at: usize) -> Result<usize, Refusal>
    requires { at ≤ length text.now }
    ensures { Reads text.now at at (λ _. optional 256 a_name) (out result) }
{
    let w = look(text, at);
    if w.kind != words::TWICE {
        return Ok(at);
    }
    read_name(text, w.next)
}

pub fn count_of(seen: Seen, takes: bool, gives: bool) -> usize
    ensures { result ≡ count_of seen takes gives }
{
    match (takes, gives) {
        (false, false) => seen.plain,
        (true, false) => seen.taking,
        (false, true) => seen.giving,
        (true, true) => seen.both,
    }
}

pub fn one_more(seen: Seen, takes: bool, gives: bool) -> Seen
    requires { count_of seen takes gives < 256 }
    ensures { result ≡ one_more seen takes gives }
{
    match (takes, gives) {
        (false, false) => Seen {
            plain: seen.plain + 1,
            ..seen
        },
        (true, false) => Seen {
            taking: seen.taking + 1,
            ..seen
        },
        (false, true) => Seen {
            giving: seen.giving + 1,
            ..seen
        },
        (true, true) => Seen {
            both: seen.both + 1,
            ..seen
        },
    }
}

// The kind of an operation, from the kinds of the words after its name alone.
fn look_ahead(text: &[u8], at: usize) -> Ahead
    requires { at ≤ length text.now }
    ensures { told_kind result ≡ kind_ahead (words_at text.now at) }
{
    let p = look(text, at);
    if p.kind != words::OPENING {
        let gives = p.kind == words::TWICE;
        return Ahead {
            known: true,
            takes: false,
            gives,
        };
    }
    let t = look(text, p.next);
    if t.kind != words::NAME {
        return Ahead {
            known: false,
            takes: true,
            gives: false,
        };
    }
    let c = look(text, t.next);
    if c.kind != words::CLOSING {
        return Ahead {
            known: false,
            takes: true,
            gives: false,
        };
    }
    let g = look(text, c.next);
    let gives = g.kind == words::TWICE;
    Ahead {
        known: true,
        takes: true,
        gives,
    }
}

// Whether the kind is known, and no more operations of it may stand.
fn is_full(seen: Seen, kind: Ahead) -> bool
    ensures { result ≡ full_in seen kind }
{
    kind.known && base::OPERATIONS <= count_of(seen, kind.takes, kind.gives)
}

// An operation where `left` more names may be declared. Past its kind's last, its name is at fault before its types are judged.
fn read_operation(text: &[u8], at: usize, left: usize, seen: Seen) -> Result<Added, Refusal>
    requires { at ≤ length text.now }
    ensures { AnOperation text.now at left seen result }
{
    let w = look(text, at);
    let o = read_one_name(text, at, left)?;
    let kind = look_ahead(text, o);
    if is_full(seen, kind) {
        return Err(over(w));
    }
    let t = read_parameter(text, o)?;
    let s = one_more(seen, kind.takes, kind.gives);
    let r = read_gives(text, t)?;
    Ok(Added { at: r, seen: s })
}

// Operations to the semicolon.
fn read_operations(text: &[u8], at: usize, left: usize, seen: Seen) -> Result<Operations, Refusal>
    requires { at ≤ length text.now }
    ensures { SomeOperations text.now at left seen result }
{
    let mut i = at;
    let mut names = left;
    let mut counts = seen;
    // no range: what is read says where the next begins
    loop {
        let a = read_operation(text, i, names, counts)?;
        names -= 1;
        counts = a.seen;
        let w = look(text, a.at);
        if w.kind == words::SEMICOLON {
            return Ok(Operations {
                at: w.next,
                left: names,
                seen: counts,
            });
        }
        i = a.at;
    }
}

// An input section, or one of inputs and outputs, after its word `input`.
fn read_tokens(text: &[u8], at: usize, state: State) -> Result<Sectioned, Refusal>
    requires { at ≤ length text.now }
    ensures { ASection text.now at at token_section state result }
{
    let w = look(text, at);
    if w.kind == words::OUTPUT {
        let v = state.input.max(state.output);
        let e = read_listed(text, w.next, state.left, true, v)?;
        let input = state.input.max(e.top);
        let output = state.output.max(e.top);
        let after = State {
            left: e.left,
            input,
            output,
            ..state
        };
        return Ok(Sectioned {
            at: e.at,
            state: after,
        });
    }
    let e = read_listed(text, at, state.left, true, state.input)?;
    let input = state.input.max(e.top);
    let after = State {
        left: e.left,
        input,
        ..state
    };
    Ok(Sectioned {
        at: e.at,
        state: after,
    })
}

// An output section after its head.
fn read_outputs(text: &[u8], at: usize, state: State) -> Result<Sectioned, Refusal>
    requires { at ≤ length text.now }
    ensures { ASection text.now at at output_section state result }
{
    let e = read_listed(text, at, state.left, true, state.output)?;
    let output = state.output.max(e.top);
    let after = State {
        left: e.left,
        output,
        ..state
    };
    Ok(Sectioned {
        at: e.at,
        state: after,
    })
}

// An error section after its head.
fn read_errors(text: &[u8], at: usize, state: State) -> Result<Sectioned, Refusal>
    requires { at ≤ length text.now }
    ensures { ASection text.now at at error_section state result }
{
    let e = read_listed(text, at, state.left, false, state.error)?;
    let error = state.error.max(e.top);
    let after = State {
        left: e.left,
        error,
        ..state
    };
    Ok(Sectioned {
        at: e.at,
        state: after,
    })
}

// A type section after its word `type`.
fn read_types(text: &[u8], at: usize, state: State) -> Result<Sectioned, Refusal>
    requires { at ≤ length text.now }
    ensures { ASection text.now at at type_section state result }
{
    let o = read_one_name(text, at, state.left)?;
    let e = read_listed(text, o, state.left - 1, false, 0)?;
    let after = State {
        left: e.left,
        ..state
    };
    Ok(Sectioned {
        at: e.at,
        state: after,
    })
}

// A section of operations.
fn read_mechanism(text: &[u8], at: usize, state: State) -> Result<Sectioned, Refusal>
    requires { at ≤ length text.now }
    ensures { ASection text.now at (at + 1) mechanism_section state result }
{
    let m = expect_word(text, at, words::MECHANISM)?;
    let n = read_name(text, m)?;
    let c = expect_word(text, n, words::COLON)?;
    let p = read_operations(text, c, state.left, state.seen)?;
    let after = State {
        left: p.left,
        seen: p.seen,
        ..state
    };
    Ok(Sectioned {
        at: p.at,
        state: after,
    })
}

// A level, 1 to 15.
fn read_level(text: &[u8], at: usize) -> Result<usize, Refusal>
    requires { at ≤ length text.now }
    ensures { Moves text.now at at (λ _. a_level) (out result) }
{
    let v = look(text, at);
    if v.kind != words::NUMBER {
        return Err(refused(v));
    }
    match number_of(text, v.start, v.len) {
        1..=base::GREATEST_LEVEL => Ok(v.next),
        _ => Err(over(v)),
    }
}

// `left` or `right`.
fn read_side(text: &[u8], at: usize) -> Result<usize, Refusal>
    requires { at ≤ length text.now }
    ensures { Moves text.now at at (λ _. a_side) (out result) }
{
    let w = look(text, at);
    if w.kind != words::NAME {
        return Err(refused(w));
    }
    if scanner::spelt(text, w.start, w.len, b"left")
        || scanner::spelt(text, w.start, w.len, b"right")
    {
        Ok(w.next)
    } else {
        Err(refused(w))
    }
}

// Token, level, side, output token.
fn read_operator(text: &[u8], at: usize) -> Result<usize, Refusal>
    requires { at ≤ length text.now }
    ensures { Moves text.now at at (λ _. an_operator) (out result) }
{
    let t = name_or_string(text, at)?;
    let l = read_level(text, t)?;
    let s = read_side(text, l)?;
    name_or_string(text, s)
}

// Operators to the semicolon.
fn read_operators(text: &[u8], at: usize) -> Result<usize, Refusal>
    requires { at ≤ length text.now }
    ensures { Moves text.now at at (λ k. some_operators k) (out result) }
{
    let mut i = at;
    // no range: what is read says where the next begins
    loop {
        let r = read_operator(text, i)?;
        let w = look(text, r);
        if w.kind == words::SEMICOLON {
            return Ok(w.next);
        }
        i = r;
    }
}

// A section of operators, after its `operators`.
fn read_operator_section(text: &[u8], at: usize, state: State) -> Result<Sectioned, Refusal>
    requires { at ≤ length text.now }
    ensures { ASection text.now at at operator_section state result }
{
    let o = read_one_name(text, at, state.left)?;
    let c = expect_word(text, o, words::COLON)?;
    let r = read_operators(text, c)?;
    let after = State {
        left: state.left - 1,
        ..state
    };
    Ok(Sectioned {
        at: r,
        state: after,
    })
}

// The word is the name `operators`.
fn is_operators(text: &[u8], w: WordAt) -> bool
    requires { w.start + w.len ≤ length text.now }
    ensures { result ≡ (eqb w.kind 257 && same (take w.len (drop w.start text.now)) (bytes "operators")) }
{
    w.kind == words::NAME && scanner::spelt(text, w.start, w.len, b"operators")
}

// A section of operators or operations.
fn read_other(text: &[u8], at: usize, state: State) -> Result<Sectioned, Refusal>
    requires { at ≤ length text.now }
    ensures { ASection text.now at (at + 1) other_section state result }
{
    let w = look(text, at);
    if is_operators(text, w) {
        return read_operator_section(text, w.next, state);
    }
    read_mechanism(text, at, state)
}

fn read_section(text: &[u8], at: usize, state: State) -> Result<Sectioned, Refusal>
    requires { at ≤ length text.now }
    ensures { ASection text.now at (at + 1) a_section state result }
{
    let w = look(text, at);
    let kind = w.kind;
    match kind {
        words::INPUT => read_tokens(text, w.next, state),
        words::OUTPUT => read_outputs(text, w.next, state),
        words::ERROR => read_errors(text, w.next, state),
        words::TYPE => read_types(text, w.next, state),
        _ => read_other(text, at, state),
    }
}

// Sections up to the word `rules`.
fn read_sections(text: &[u8], at: usize, state: State) -> Result<Counted, Refusal>
    requires { at ≤ length text.now }
    ensures { SomeSections text.now at state result }
{
    let mut i = at;
    let mut sofar = state;
    // no range: what is read says where the next begins
    loop {
        let w = look(text, i);
        if w.kind == words::RULES {
            return Ok(Counted {
                at: i,
                room: sofar.left,
            });
        }
        let x = read_section(text, i, sofar)?;
        i = x.at;
        sofar = x.state;
    }
}

// A rule where `left` more may be declared.
fn read_rule(text: &[u8], at: usize, left: usize) -> Result<usize, Refusal>
    requires { at ≤ length text.now }
    ensures { ARule text.now at left (out result) }
{
    let o = read_one_name(text, at, left)?;
    let g = read_gives(text, o)?;
    let c = expect_word(text, g, words::COLON)?;
    let b = read_actions(text, c, base::NESTED)?;
    expect_word(text, b, words::SEMICOLON)
}

fn read_rules(text: &[u8], at: usize, left: usize) -> Result<usize, Refusal>
    requires { at ≤ length text.now }
    ensures { Reads text.now at at (λ k. some_rules k left) (out result) }
{
    let mut i = at;
    let mut names = left;
    // no range: what is read says where the next begins
    loop {
        let r = read_rule(text, i, names)?;
        names -= 1;
        let w = look(text, r);
        if w.kind != words::NAME {
            return Ok(r);
        }
        i = r;
    }
}

// The word `end`, and no word after it.
fn read_end(text: &[u8], at: usize) -> Result<(), Refusal>
    requires { at ≤ length text.now }
    ensures { Decides (done result) (ending (words_at text.now at)) }
{
    let e = expect_word(text, at, words::END)?;
    let w = look(text, e);
    if w.kind == words::LAST {
        Ok(())
    } else {
        Err(refused(w))
    }
}

// What is left before any section.
fn no_section() -> State
    ensures { Keeps nothing result }
{
    let seen = Seen {
        plain: 0,
        taking: 0,
        giving: 0,
        both: 0,
    };
    State {
        left: base::NAMES,
        input: 0,
        output: 0,
        error: 0,
        seen,
    }
}

fn read_program(text: &[u8]) -> Result<(), Refusal>
    ensures { Decides (done result) (program (length text.now + 1) (words text.now)) }
{
    let s = read_sections(text, 0, no_section())?;
    let e = expect_word(text, s.at, words::RULES)?;
    let m = base::RULES.min(s.room);
    let r = read_rules(text, e, m)?;
    read_end(text, r)
}

// Fault 9 at the empty part at the end of a text of n bytes.
fn over_long(n: usize) -> Refusal
    ensures { (fault_number result.fault ≡ 9) × (result.at ≡ n) × (result.len ≡ 0) }
{
    Refusal {
        fault: Fault::OverLimit,
        at: n,
        len: 0,
    }
}

// That the text is a program, or its first fault 1, 2 or 9 and its word.
#[inline(never)]
pub fn check_syntax(text: &[u8]) -> Result<(), Refusal>
    ensures { Decides (done result) (parse text.now) }
{
    if base::TEXT_BYTES < text.len() {
        return Err(over_long(text.len()));
    }
    read_program(text)
}

// A line of a common part's list, where `left` more names may be declared: a choice rule, `>>`, its type, a semicolon.
fn read_head(text: &[u8], at: usize, left: usize) -> Result<usize, Refusal>
    requires { at ≤ length text.now }
    ensures { AHead text.now at left (out result) }
{
    let o = read_one_name(text, at, left)?;
    let e = expect_word(text, o, words::TWICE)?;
    let g = read_name(text, e)?;
    expect_word(text, g, words::SEMICOLON)
}

// The lines of the list: there may be none.
fn read_heads(text: &[u8], at: usize, left: usize) -> Result<usize, Refusal>
    requires { at ≤ length text.now }
    ensures { Reads text.now at at (λ k. some_heads k left) (out result) }
{
    let mut i = at;
    let mut names = left;
    // no range: what is read says where the next begins
    loop {
        let w = look(text, i);
        if w.kind != words::NAME {
            return Ok(i);
        }
        i = read_head(text, i, names)?;
        names -= 1;
    }
}

// A common part up to its word `end`, and how many names its sections leave.
fn read_shared(text: &[u8]) -> Result<Counted, Refusal>
    ensures { Shares text.now result }
{
    let s = read_sections(text, 0, no_section())?;
    let e = expect_word(text, s.at, words::RULES)?;
    let m = base::RULES.min(s.room);
    let h = read_heads(text, e, m)?;
    Ok(Counted {
        at: h,
        room: s.room,
    })
}

fn read_common(text: &[u8]) -> Result<Counted, Refusal>
    ensures { SettlesCommon text.now result (read_common text.now) }
{
    let s = read_shared(text)?;
    let w = look(text, s.at);
    read_end(text, s.at)?;
    Ok(Counted {
        at: w.start,
        room: s.room,
    })
}

fn read_part(text: &[u8], left: usize) -> Result<usize, Refusal>
    ensures { SettlesPart text.now left result (read_part left text.now) }
{
    let k = expect_word(text, 0, words::RULES)?;
    let m = base::RULES.min(left);
    let r = read_rules(text, k, m)?;
    read_end(text, r)?;
    Ok(k)
}

// The start of a common part's word `end`, and how many names its sections leave for the rules; or its first fault 1, 2 or 9 and its word.
pub fn check_common(text: &[u8]) -> Result<Counted, Refusal>
    ensures { SettlesCommon text.now result (unless_long text.now (read_common text.now)) }
{
    if base::TEXT_BYTES < text.len() {
        return Err(over_long(text.len()));
    }
    read_common(text)
}

// The place right behind the word `rules` of a further part, where `left` names may be declared; or its first fault 1, 2 or 9 and its word.
pub fn check_part(text: &[u8], left: usize) -> Result<usize, Refusal>
    ensures { SettlesPart text.now left result (unless_long text.now (read_part left text.now)) }
{
    if base::TEXT_BYTES < text.len() {
        return Err(over_long(text.len()));
    }
    read_part(text, left)
}
