// The parts of a rule that hold no actions: plain actions, selectors and labels, resolved and appended as cells.
#![tactic(auto)]

ghost use Rattle.std.specs.Prelude.{◌≡◌, List, [], ◌∷◌, ℕ, ◌+◌, ◌*◌, ◌<◌, ◌≤◌, length, get_or, take, IfSome, is_some, unwrap_or, Ok};
ghost use Rattle.base.specs.Common.{member};
ghost use Rattle.base.specs.Faults.{fault_number};
ghost use Rattle.declarations.specs.Decls.{class_named};
ghost use Rattle.program.specs.Program.{Plain, emit, error};
ghost use Rattle.resolver.specs.Parts.{Lies, Went, RestDone, NameIn, Sends, MatchDone, UpdateDone, NamedDone, SentDone, call_of, GivenDone, GiveDone, AnyDone, ExitDone, RankedDone};
ghost use Rattle.resolver.specs.Parts.{operation_cells, parameter_told, label_told, ValueDone, OperandDone, ChoiceDone, by_rule_of, WithDone, ByOperationDone, LabelDone};
ghost use Rattle.resolver.specs.Resolved.{Appends, Faulted, fault_told, built_told, selected_told, labels_told, PlainDone, SelectorDone, LabelsDone};
ghost use Rattle.scanner.specs.Next.{Next};
ghost use Rattle.symbols.specs.Index.{Kept};
ghost use Rattle.symbols.specs.Rows.{held};
ghost use Rattle.symbols.specs.Search.{part};

use base::{Fault, Refusal};
use scanner::WordAt;

// Where an action stands: among n declarations, in a cycle or not, in a rule that gives values of the class (0: in a procedure rule).
#[derive(Clone, Copy, Debug, PartialEq, Eq)]
pub struct Scope {
    pub n: usize,
    pub inside: bool,
    pub class: usize,
}

// An action with a value: the value's class, the action's first cell, and whether it goes past itself.
#[derive(Clone, Copy, Debug, PartialEq, Eq)]
pub struct Sent {
    pub class: usize,
    pub first: u16,
    pub past: bool,
}

// A choice operation: its declaration, and the class of its answers.
#[derive(Clone, Copy, Debug, PartialEq, Eq)]
pub struct Asked {
    pub row: usize,
    pub class: usize,
}

// Actions that were read up to the place `at`: how many cells there are, whether the actions go past themselves, and whether an exit in
// them leaves the cycle around them.
#[derive(Clone, Copy, Debug, PartialEq, Eq)]
pub struct Built {
    pub at: usize,
    pub count: usize,
    pub past: bool,
    pub exits: bool,
}

// A selector that was read up to the place `at`: how many cells there are, the class of the labels, and the cell that stands for no otherwise.
#[derive(Clone, Copy, Debug, PartialEq, Eq)]
pub struct Selected {
    pub at: usize,
    pub count: usize,
    pub class: usize,
    pub absent: u16,
}

// Labels that were read up to the place `at`, and how many the choice has now.
#[derive(Clone, Copy, Debug, PartialEq, Eq)]
pub struct Labels {
    pub at: usize,
    pub used: usize,
}

// A label's value, and the place behind it.
#[derive(Clone, Copy, Debug, PartialEq, Eq)]
pub struct Label {
    pub at: usize,
    pub value: u16,
}

// An operation's parameter, if it is there, and the place behind it.
#[derive(Clone, Copy, Debug, PartialEq, Eq)]
pub struct Parameter {
    pub at: usize,
    pub value: Option<usize>,
}

// Cells

// One more cell. Past the end nothing is written, and the count stays one above the room.
pub fn put(cells: &mut [u16], count: usize, x: u16) -> usize
    ensures { Appends cells.old count (x ∷ []) cells.new result }
{
    if count < cells.len() {
        cells[count] = x;
        return count + 1;
    }
    cells.len() + 1
}

pub fn put_two(cells: &mut [u16], count: usize, x: u16, y: usize) -> usize
    requires { y < 65536 }
    ensures { Appends cells.old count (x ∷ y ∷ []) cells.new result }
{
    let c = put(cells, count, x);
    put(cells, c, y as u16)
}

// The instruction of declaration `row`, and the parameter, if it is there.
fn put_operation(
    rows: &[u16],
    row: usize,
    value: Option<usize>,
    cells: &mut [u16],
    count: usize,
) -> usize
    requires { (row < 512) × IfSome value (λ v. v < 65536) }
    ensures { Appends cells.old count (operation_cells (get_or rows.now (8 * row + 1) 0) (is_some value) (unwrap_or value 0)) cells.new result }
{
    let op = base::number(rows, symbols::ROW * row + symbols::VALUE) as u16;
    match value {
        Some(v) => put_two(cells, count, op, v),
        None => put(cells, count, op),
    }
}

// Answers

fn refused(fault: Fault, w: WordAt) -> Refusal
    ensures { Faulted (fault_number fault) w.start w.len (fault_told result) }
{
    Refusal {
        fault,
        at: w.start,
        len: w.len,
    }
}

// An action that was read up to the place `at` and is no exit.
fn went(at: usize, count: usize, past: bool) -> Built
    ensures { Went at count past (built_told (Ok result)) }
{
    Built {
        at,
        count,
        past,
        exits: false,
    }
}

// Parameters

// The class of the values of a type, 0 where there is no such type.
fn class_named(text: &[u8], rows: &[u16], n: usize, start: usize, len: usize) -> usize
    requires { Kept text.now rows.now n }
    ensures { result ≡ class_named (held text.now rows.now n) (part text.now start len) }
{
    match symbols::find_row(text, rows, n, symbols::TYPE, start, len) {
        Some(i) => symbols::VALUES + i,
        None => 0,
    }
}

// A parameter of the class, and the `)` behind it.
fn parameter_value(
    text: &[u8],
    rows: &[u16],
    n: usize,
    at: usize,
    class: usize,
) -> Result<Parameter, Refusal>
    requires { (at ≤ length text.now) × Kept text.now rows.now n }
    ensures { ValueDone text.now rows.now n at class (parameter_told result) }
{
    let c = scanner::next_word(text, at);
    match symbols::value_of(text, rows, n, class, c.start, c.len) {
        Ok(value) => {
            let e = scanner::next_word(text, c.next);
            Ok(Parameter {
                at: e.next,
                value: Some(value),
            })
        }
        Err(fault) => Err(refused(fault, c)),
    }
}

// The parameter of the operation w, which is declaration `row`.
fn parameter_of(
    text: &[u8],
    rows: &[u16],
    n: usize,
    row: usize,
    w: WordAt,
) -> Result<Parameter, Refusal>
    requires { Lies text.now w × Kept text.now rows.now n × (row < n) }
    ensures { OperandDone w row text.now rows.now n (parameter_told result) }
{
    let k = scanner::next_word(text, w.next);
    let len = base::number(rows, symbols::ROW * row + symbols::SECOND_LEN);
    if k.kind != words::OPENING {
        if len != 0 {
            return Err(refused(Fault::NotWanted, w));
        }
        return Ok(Parameter {
            at: w.next,
            value: None,
        });
    }
    if len == 0 {
        return Err(refused(Fault::NotWanted, k));
    }
    let start = base::number(rows, symbols::ROW * row + symbols::SECOND_START);
    let class = class_named(text, rows, n, start, len);
    parameter_value(text, rows, n, k.next, class)
}

// Plain actions

// A token to match, and no constant behind it.
fn resolve_match(
    text: &[u8],
    at: usize,
    v: usize,
    cells: &mut [u16],
    count: usize,
) -> Result<Built, Refusal>
    requires { (at ≤ length text.now) × (v < 65536) }
    ensures { (rows : List ℕ) (n : ℕ) → MatchDone v text.now rows n at cells.old count cells.new (built_told result) }
{
    let k = scanner::next_word(text, at);
    if k.kind == words::OPENING {
        return Err(refused(Fault::NotWanted, k));
    }
    let c = put_two(cells, count, cells::MATCH, v);
    Ok(went(at, c, true))
}

// An update operation and its constant.
fn resolve_update(
    text: &[u8],
    rows: &[u16],
    n: usize,
    w: WordAt,
    cells: &mut [u16],
    count: usize,
) -> Result<Built, Refusal>
    requires { Lies text.now w × Kept text.now rows.now n }
    ensures { UpdateDone w text.now rows.now n cells.old count cells.new (built_told result) }
{
    let row = match symbols::operation_of(text, rows, n, w.start, w.len) {
        Ok(row) => row,
        Err(fault) => return Err(refused(fault, w)),
    };
    let chooses = base::number(rows, symbols::ROW * row + symbols::THIRD_LEN);
    if chooses != 0 {
        return Err(refused(Fault::NotWanted, w));
    }
    let p = parameter_of(text, rows, n, row, w)?;
    let c = put_operation(rows, row, p.value, cells, count);
    Ok(went(p.at, c, true))
}

// A name or a string that is an action: a token or an update operation.
fn resolve_named(
    text: &[u8],
    rows: &[u16],
    n: usize,
    w: WordAt,
    cells: &mut [u16],
    count: usize,
) -> Result<Built, Refusal>
    requires { Lies text.now w × Kept text.now rows.now n }
    ensures { NamedDone w text.now rows.now n cells.old count cells.new (built_told result) }
{
    match symbols::find_value(text, rows, n, symbols::INPUT, w.start, w.len) {
        Some(v) => resolve_match(text, w.next, v, cells, count),
        None => resolve_update(text, rows, n, w, cells, count),
    }
}

// A name or string, and its action of two cells.
fn resolve_sent(
    text: &[u8],
    rows: &[u16],
    n: usize,
    at: usize,
    sent: Sent,
    cells: &mut [u16],
    count: usize,
) -> Result<Built, Refusal>
    requires { (at ≤ length text.now) × Kept text.now rows.now n }
    ensures { (f : ℕ → Plain) → Sends sent.first sent.past f → SentDone f sent.class text.now rows.now n at cells.old count cells.new (built_told result) }
{
    let w = scanner::next_word(text, at);
    let value = match symbols::value_of(text, rows, n, sent.class, w.start, w.len) {
        Ok(value) => value,
        Err(fault) => return Err(refused(fault, w)),
    };
    let c = put_two(cells, count, sent.first, value);
    Ok(went(w.next, c, sent.past))
}

// An output's name or string after `.`.
fn resolve_emit(
    text: &[u8],
    rows: &[u16],
    n: usize,
    at: usize,
    cells: &mut [u16],
    count: usize,
) -> Result<Built, Refusal>
    requires { (at ≤ length text.now) × Kept text.now rows.now n }
    ensures { SentDone emit 2 text.now rows.now n at cells.old count cells.new (built_told result) }
{
    let sent = Sent {
        class: symbols::OUTPUT,
        first: cells::EMIT,
        past: true,
    };
    resolve_sent(text, rows, n, at, sent, cells, count)
}

// An error's name or string after `#`.
fn resolve_error(
    text: &[u8],
    rows: &[u16],
    n: usize,
    at: usize,
    cells: &mut [u16],
    count: usize,
) -> Result<Built, Refusal>
    requires { (at ≤ length text.now) × Kept text.now rows.now n }
    ensures { SentDone error 4 text.now rows.now n at cells.old count cells.new (built_told result) }
{
    let sent = Sent {
        class: symbols::ERROR,
        first: cells::ERROR,
        past: true,
    };
    resolve_sent(text, rows, n, at, sent, cells, count)
}

// A procedure rule's name after `@`.
fn resolve_call(
    text: &[u8],
    rows: &[u16],
    n: usize,
    at: usize,
    cells: &mut [u16],
    count: usize,
) -> Result<Built, Refusal>
    requires { (at ≤ length text.now) × Kept text.now rows.now n }
    ensures { RestDone NameIn call_of text.now rows.now n at cells.old count cells.new (built_told result) }
{
    let w = scanner::next_word(text, at);
    let row = match symbols::rule_of(text, rows, n, w.start, w.len) {
        Ok(row) => row,
        Err(fault) => return Err(refused(fault, w)),
    };
    let gives = base::number(rows, symbols::ROW * row + symbols::THIRD_LEN);
    if gives != 0 {
        return Err(refused(Fault::NotWanted, w));
    }
    let place = base::number(rows, symbols::ROW * row + symbols::VALUE);
    let c = put_two(cells, count, cells::CALL, place);
    Ok(went(w.next, c, true))
}

// A section's name and a procedure rule's after `^`, the word w: a call of the lowest rule that is made for the two.
fn resolve_ranked(
    text: &[u8],
    rows: &[u16],
    n: usize,
    w: WordAt,
    cells: &mut [u16],
    count: usize,
) -> Result<Built, Refusal>
    requires { Lies text.now w × Kept text.now rows.now n }
    ensures { RankedDone w text.now rows.now n cells.old count cells.new (built_told result) }
{
    let s = scanner::next_word(text, w.next);
    let section = match symbols::operators_of(text, rows, n, s.start, s.len) {
        Ok(section) => section,
        Err(fault) => return Err(refused(fault, s)),
    };
    let a = scanner::next_word(text, s.next);
    let o = scanner::next_word(text, a.next);
    let row = match symbols::rule_of(text, rows, n, o.start, o.len) {
        Ok(row) => row,
        Err(fault) => return Err(refused(fault, o)),
    };
    let valued = base::number(rows, symbols::ROW * row + symbols::THIRD_LEN);
    if valued != 0 {
        return Err(refused(Fault::NotWanted, o));
    }
    let lowest = maker::lowest(rows, section, row);
    let c = put_two(cells, count, cells::CALL, lowest);
    Ok(went(o.next, c, true))
}

// The value after `>>`, the word w.
fn give_value(
    text: &[u8],
    rows: &[u16],
    n: usize,
    w: WordAt,
    class: usize,
    cells: &mut [u16],
    count: usize,
) -> Result<Built, Refusal>
    requires { Lies text.now w × Kept text.now rows.now n }
    ensures { GivenDone w class text.now rows.now n cells.old count cells.new (built_told result) }
{
    if class == 0 {
        let v = scanner::next_word(text, w.next);
        return Err(refused(Fault::WrongReturn, v));
    }
    let sent = Sent {
        class,
        first: cells::GIVE,
        past: false,
    };
    resolve_sent(text, rows, n, w.next, sent, cells, count)
}

// The rest of `>>`, the word w.
fn resolve_give(
    text: &[u8],
    rows: &[u16],
    n: usize,
    w: WordAt,
    class: usize,
    cells: &mut [u16],
    count: usize,
) -> Result<Built, Refusal>
    requires { Lies text.now w × Kept text.now rows.now n }
    ensures { GiveDone w class text.now rows.now n cells.old count cells.new (built_told result) }
{
    let v = scanner::next_word(text, w.next);
    if v.kind == words::NAME {
        return give_value(text, rows, n, w, class, cells, count);
    }
    if v.kind == words::STRING {
        return give_value(text, rows, n, w, class, cells, count);
    }
    if class != 0 {
        return Err(refused(Fault::WrongReturn, w));
    }
    let c = put(cells, count, cells::BACK);
    Ok(went(w.next, c, false))
}

// `?`, the word w.
fn resolve_any(w: WordAt, cells: &mut [u16], count: usize) -> Result<Built, Refusal>
    ensures { (text rows : List ℕ) (n : ℕ) → Lies text w → AnyDone w text rows n cells.old count cells.new (built_told result) }
{
    let c = put(cells, count, cells::ANY);
    Ok(went(w.next, c, true))
}

// `>`, the word w.
fn resolve_exit(w: WordAt, inside: bool, cells: &mut [u16], count: usize) -> Result<Built, Refusal>
    ensures { (text rows : List ℕ) (n : ℕ) → Lies text w → ExitDone w inside text rows n cells.old count cells.new (built_told result) }
{
    if inside {
        let count = put(cells, count, cells::EXIT);
        return Ok(Built {
            at: w.next,
            count,
            past: false,
            exits: true,
        });
    }
    Err(refused(Fault::NoCycle, w))
}

// A plain action, whose first word is w, and what it means there.
pub fn resolve_plain(
    text: &[u8],
    rows: &[u16],
    scope: Scope,
    at: usize,
    w: WordAt,
    cells: &mut [u16],
    count: usize,
) -> Result<Built, Refusal>
    requires { (at ≤ length text.now) × Next text.now at w × Kept text.now rows.now scope.n }
    ensures { PlainDone text.now rows.now scope.n at scope.inside scope.class cells.old count cells.new (built_told result) }
{
    let n = scope.n;
    match w.kind {
        words::NAME => resolve_named(text, rows, n, w, cells, count),
        words::STRING => resolve_named(text, rows, n, w, cells, count),
        words::QUESTION => resolve_any(w, cells, count),
        words::POINT => resolve_emit(text, rows, n, w.next, cells, count),
        words::HASH => resolve_error(text, rows, n, w.next, cells, count),
        words::GREATER => resolve_exit(w, scope.inside, cells, count),
        words::AT => resolve_call(text, rows, n, w.next, cells, count),
        words::TWICE => resolve_give(text, rows, n, w, scope.class, cells, count),
        words::CARET => resolve_ranked(text, rows, n, w, cells, count),
        _ => Err(refused(Fault::NotAllowed, w)),
    }
}

// Selectors

// A choice rule's name after `@`.
fn select_rule(
    text: &[u8],
    rows: &[u16],
    n: usize,
    at: usize,
    cells: &mut [u16],
    count: usize,
) -> Result<Selected, Refusal>
    requires { (at ≤ length text.now) × Kept text.now rows.now n }
    ensures { ChoiceDone NameIn by_rule_of text.now rows.now n at cells.old count cells.new (selected_told result) }
{
    let w = scanner::next_word(text, at);
    let row = match symbols::rule_of(text, rows, n, w.start, w.len) {
        Ok(row) => row,
        Err(fault) => return Err(refused(fault, w)),
    };
    let gives = base::number(rows, symbols::ROW * row + symbols::THIRD_LEN);
    if gives == 0 {
        return Err(refused(Fault::NotWanted, w));
    }
    let start = base::number(rows, symbols::ROW * row + symbols::THIRD_START);
    let class = class_named(text, rows, n, start, gives);
    let place = base::number(rows, symbols::ROW * row + symbols::VALUE);
    let c = put_two(cells, count, cells::BY_RULE, place);
    Ok(Selected {
        at: w.next,
        count: c,
        class,
        absent: cells::NO_OTHERWISE,
    })
}

// A choice operation w and its constant, the declaration being known.
fn select_with(
    text: &[u8],
    rows: &[u16],
    n: usize,
    asked: Asked,
    w: WordAt,
    cells: &mut [u16],
    count: usize,
) -> Result<Selected, Refusal>
    requires { Lies text.now w × Kept text.now rows.now n × (asked.row < n) }
    ensures { WithDone w asked.row asked.class text.now rows.now n cells.old count cells.new (selected_told result) }
{
    let p = parameter_of(text, rows, n, asked.row, w)?;
    let c = put_operation(rows, asked.row, p.value, cells, count);
    Ok(Selected {
        at: p.at,
        count: c,
        class: asked.class,
        absent: cells::NO_OTHERWISE,
    })
}

// A choice operation w and its constant.
fn select_operation(
    text: &[u8],
    rows: &[u16],
    n: usize,
    w: WordAt,
    cells: &mut [u16],
    count: usize,
) -> Result<Selected, Refusal>
    requires { Lies text.now w × Kept text.now rows.now n }
    ensures { ByOperationDone w text.now rows.now n cells.old count cells.new (selected_told result) }
{
    let row = match symbols::operation_of(text, rows, n, w.start, w.len) {
        Ok(row) => row,
        Err(fault) => return Err(refused(fault, w)),
    };
    let chooses = base::number(rows, symbols::ROW * row + symbols::THIRD_LEN);
    if chooses == 0 {
        return Err(refused(Fault::NotWanted, w));
    }
    let start = base::number(rows, symbols::ROW * row + symbols::THIRD_START);
    let class = class_named(text, rows, n, start, chooses);
    let asked = Asked { row, class };
    select_with(text, rows, n, asked, w, cells, count)
}

pub fn resolve_selector(
    text: &[u8],
    rows: &[u16],
    n: usize,
    at: usize,
    cells: &mut [u16],
    count: usize,
) -> Result<Selected, Refusal>
    requires { (at ≤ length text.now) × Kept text.now rows.now n }
    ensures { SelectorDone text.now rows.now n at cells.old count cells.new (selected_told result) }
{
    let w = scanner::next_word(text, at);
    if w.kind == words::AT {
        return select_rule(text, rows, n, w.next, cells, count);
    }
    if w.kind == words::NAME {
        return select_operation(text, rows, n, w, cells, count);
    }
    let c = put(cells, count, cells::BY_TOKEN);
    Ok(Selected {
        at,
        count: c,
        class: symbols::INPUT,
        absent: cells::NO_TOKEN,
    })
}

// Labels

// The value is among the first `used`.
fn is_seen(seen: &[u16], used: usize, v: u16) -> bool
    requires { used ≤ length seen.now }
    ensures { result ≡ member v (take used seen.now) }
{
    seen[..used].contains(&v)
}

// A label of the class that is not among the first `used`, where there is room for it.
fn resolve_label(
    text: &[u8],
    rows: &[u16],
    n: usize,
    at: usize,
    class: usize,
    seen: &[u16],
    used: usize,
) -> Result<Label, Refusal>
    requires { (at ≤ length text.now) × Kept text.now rows.now n × (used ≤ length seen.now) }
    ensures { LabelDone text.now rows.now n at class seen.now used (label_told result) }
{
    let w = scanner::next_word(text, at);
    if w.kind < words::FIRST_WORD {
        return Err(refused(Fault::NotAllowed, w));
    }
    let value = match symbols::value_of(text, rows, n, class, w.start, w.len) {
        Ok(value) => value as u16,
        Err(fault) => return Err(refused(fault, w)),
    };
    if is_seen(seen, used, value) {
        return Err(refused(Fault::LabelRepeated, w));
    }
    if seen.len() <= used {
        return Err(refused(Fault::NotAllowed, w));
    }
    Ok(Label { at: w.next, value })
}

// Labels up to a word that is no comma, in a choice whose first `used` labels are seen.
pub fn resolve_labels(
    text: &[u8],
    rows: &[u16],
    n: usize,
    at: usize,
    class: usize,
    seen: &mut [u16],
    used: usize,
) -> Result<Labels, Refusal>
    requires { (at ≤ length text.now) × Kept text.now rows.now n × (used ≤ length seen.old) }
    ensures { LabelsDone text.now rows.now n at class seen.old used seen.new (labels_told result) }
{
    let mut i = at;
    let mut u = used;
    // no range: what is read says where the next begins
    loop {
        let l = resolve_label(text, rows, n, i, class, seen, u)?;
        seen[u] = l.value;
        let more = u + 1;
        let w = scanner::next_word(text, l.at);
        if w.kind != words::COMMA {
            return Ok(Labels {
                at: l.at,
                used: more,
            });
        }
        i = w.next;
        u = more;
    }
}
