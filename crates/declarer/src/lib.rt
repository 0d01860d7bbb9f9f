// The faults of the declarations, over their row; a section of operators has its entries in the text.
#![tactic(auto)]

ghost use Rattle.std.specs.Prelude.{◌≡◌, true, false, ◌&&◌, ◌||◌, List, [], ℕ, ◌+◌, ◌-◌, ◌*◌, ◌<◌, ◌≤◌, eqb, length, take, IfSome};
ghost use Rattle.std.proofs.Math.Option.{Option};
ghost use Rattle.base.specs.Common.{given};
ghost use Rattle.base.specs.Faults.{fault_number};
ghost use Rattle.names.specs.Known.{fault_if, find};
ghost use Rattle.names.specs.Declare.{spelled, differ};
ghost use Rattle.declarations.specs.Decls.{knowns_in, index_of, repeats_in, clashes_in, entry_again, optional_in, operation_fault, operators_fault, decl_fault, decl_faults, EntriesAt};
ghost use Rattle.grammar.specs.Derived.{OperatorsIn};
ghost use Rattle.syntax.specs.Written.{Operator};
ghost use Rattle.maker.specs.Ranks.{EntryIs};
ghost use Rattle.symbols.specs.Index.{Kept};
ghost use Rattle.symbols.specs.Rows.{answer_of, option_of, decl_at, held, held_from};
ghost use Rattle.symbols.specs.Search.{part};
ghost use Rattle.words.specs.Words.{Word, words_at};
ghost use Rattle.declarer.specs.Faults.{Refuses, fault_of, at_of, len_of, input_again, both_again, operation_again, types_in, line_again, line_fault, line_faults};
ghost use Rattle.declarer.specs.Operators.{number_in, same_value, against, entry_fault, entries_fault, slot_of, is_free, side_slot, Apart, MarkedAs, MarksKept};

use base::{Refusal, number};
use maker::{Entry, entries_at, read_entry};
use scanner::{WordAt, next_word};
use symbols::{
    BOTH, INPUT, NAME_LEN, NAME_START, OPERATION, OPERATORS, OUTPUT, ROW, RULE, SECOND_LEN,
    SECOND_START, THIRD_LEN, THIRD_START, TYPE, VALUE, find_value, has_row, has_value, is_known,
    part_len, type_of, value_of,
};

// Marks of the entries of a section: for each token's value, at the first declaration that has it, and behind them for each level and side.
const SIDES: usize = base::NAMES;

const MARKS: usize = SIDES + 32;

// The class has the name of declaration i before it.
fn name_known(text: &[u8], rows: &[u16], i: usize, class: usize) -> bool
    requires { Kept text.now rows.now i }
    ensures { result ≡ given (find (decl_at text.now rows.now i).name.text (knowns_in class (held text.now rows.now i))) }
{
    is_known(
        text,
        rows,
        i,
        class,
        number(rows, ROW * i + NAME_START),
        number(rows, ROW * i + NAME_LEN),
    )
}

// The class has its string before it.
fn string_known(text: &[u8], rows: &[u16], i: usize, class: usize) -> bool
    requires { Kept text.now rows.now i }
    ensures { result ≡ spelled (decl_at text.now rows.now i).second (knowns_in class (held text.now rows.now i)) }
{
    let len = number(rows, ROW * i + SECOND_LEN);
    len != 0
        && is_known(
            text,
            rows,
            i,
            class,
            number(rows, ROW * i + SECOND_START),
            len,
        )
}

// A declaration of the class has its name before it.
fn name_taken(text: &[u8], rows: &[u16], i: usize, class: usize) -> bool
    requires { Kept text.now rows.now i }
    ensures { result ≡ given (index_of class (decl_at text.now rows.now i).name.text 0 (held text.now rows.now i)) }
{
    has_row(
        text,
        rows,
        i,
        class,
        number(rows, ROW * i + NAME_START),
        number(rows, ROW * i + NAME_LEN),
    )
}

// The class has its name, its string or its value before it.
fn repeats(text: &[u8], rows: &[u16], i: usize, class: usize) -> bool
    requires { Kept text.now rows.now i }
    ensures { result ≡ repeats_in class (decl_at text.now rows.now i) (held text.now rows.now i) }
{
    name_known(text, rows, i, class)
        || string_known(text, rows, i, class)
        || has_value(rows, i, class, number(rows, ROW * i + VALUE))
}

// An operation has its name before it.
fn clashes(text: &[u8], rows: &[u16], i: usize) -> bool
    requires { Kept text.now rows.now i }
    ensures { result ≡ clashes_in (decl_at text.now rows.now i) (held text.now rows.now i) }
{
    name_taken(text, rows, i, OPERATION)
}

// An input token again.
fn input_again(text: &[u8], rows: &[u16], i: usize) -> bool
    requires { Kept text.now rows.now i }
    ensures { result ≡ input_again (decl_at text.now rows.now i) (held text.now rows.now i) }
{
    repeats(text, rows, i, INPUT) || clashes(text, rows, i)
}

// A token of input and output again.
fn both_again(text: &[u8], rows: &[u16], i: usize) -> bool
    requires { Kept text.now rows.now i }
    ensures { result ≡ both_again (decl_at text.now rows.now i) (held text.now rows.now i) }
{
    repeats(text, rows, i, INPUT) || repeats(text, rows, i, OUTPUT) || clashes(text, rows, i)
}

// An entry again, by its class.
fn entry_again(text: &[u8], rows: &[u16], i: usize) -> bool
    requires { Kept text.now rows.now i }
    ensures { result ≡ entry_again (decl_at text.now rows.now i) (held text.now rows.now i) }
{
    let class = number(rows, ROW * i);
    match class {
        INPUT => input_again(text, rows, i),
        BOTH => both_again(text, rows, i),
        _ => repeats(text, rows, i, class),
    }
}

// An operation again, or after an input token.
fn operation_again(text: &[u8], rows: &[u16], i: usize) -> bool
    requires { Kept text.now rows.now i }
    ensures { result ≡ operation_again (decl_at text.now rows.now i) (held text.now rows.now i) }
{
    name_taken(text, rows, i, OPERATION) || name_known(text, rows, i, INPUT)
}

// The fault 4 of declaration i where it is there again.
fn fault_if(text: &[u8], rows: &[u16], i: usize, again: bool) -> Result<(), Refusal>
    requires { i ≤ 512 }
    ensures { Refuses result (fault_if again 4 (decl_at text.now rows.now i).name) }
{
    if again {
        let at = number(rows, ROW * i + NAME_START);
        return Err(Refusal {
            fault: base::Fault::Repeated,
            at,
            len: part_len(text, at, number(rows, ROW * i + NAME_LEN)),
        });
    }
    Ok(())
}

// The fault of a type that may be there, among the first `before` declarations.
fn optional_fault(
    text: &[u8],
    rows: &[u16],
    n: usize,
    before: usize,
    start: usize,
    len: usize,
) -> Result<(), Refusal>
    requires { Kept text.now rows.now n × (before ≤ n) }
    ensures { (kind : ℕ) → Refuses result (optional_in (held text.now rows.now n) (held text.now rows.now before) (option_of text.now kind start len)) }
{
    if len == 0 {
        return Ok(());
    }
    match type_of(text, rows, n, before, start, len) {
        Ok(_) => Ok(()),
        Err(fault) => Err(Refusal {
            fault,
            at: start,
            len: part_len(text, start, len),
        }),
    }
}

// The fault of the type that declaration i gives, where it gives one. `types_fault` asks in place: through this function the device's code would be longer.
fn given_fault(text: &[u8], rows: &[u16], n: usize, i: usize) -> Result<(), Refusal>
    requires { Kept text.now rows.now n × (i ≤ n) }
    ensures { Refuses result (optional_in (held text.now rows.now n) (held text.now rows.now i) (decl_at text.now rows.now i).third) }
{
    optional_fault(
        text,
        rows,
        n,
        i,
        number(rows, ROW * i + THIRD_START),
        number(rows, ROW * i + THIRD_LEN),
    )
}

// The fault of the types that an operation takes and gives.
fn types_fault(text: &[u8], rows: &[u16], n: usize, i: usize) -> Result<(), Refusal>
    requires { Kept text.now rows.now n × (i ≤ n) }
    ensures { Refuses result (types_in (held text.now rows.now n) (held text.now rows.now i) (decl_at text.now rows.now i)) }
{
    optional_fault(
        text,
        rows,
        n,
        i,
        number(rows, ROW * i + SECOND_START),
        number(rows, ROW * i + SECOND_LEN),
    )?;
    optional_fault(
        text,
        rows,
        n,
        i,
        number(rows, ROW * i + THIRD_START),
        number(rows, ROW * i + THIRD_LEN),
    )
}

fn operation_fault(text: &[u8], rows: &[u16], n: usize, i: usize) -> Result<(), Refusal>
    requires { Kept text.now rows.now n × (i ≤ n) }
    ensures { Refuses result (operation_fault (held text.now rows.now n) (held text.now rows.now i) (decl_at text.now rows.now i)) }
{
    fault_if(text, rows, i, operation_again(text, rows, i))?;
    types_fault(text, rows, n, i)
}

// Operators

fn differ(a: bool, b: bool) -> bool
    ensures { result ≡ differ a b }
{
    a != b
}

// The entry b has the other side of e's level.
fn other_side(e: Entry, b: Entry) -> bool
    ensures { result ≡ (eqb e.level b.level && differ e.right b.right) }
{
    e.level == b.level && differ(e.right, b.right)
}

// The entry b has the token of value v.
fn has_token(text: &[u8], rows: &[u16], n: usize, v: Option<usize>, b: Entry) -> bool
    requires { Kept text.now rows.now n }
    ensures { (x : Option ℕ) → v ≡ answer_of x → result ≡ same_value x (find (part text.now b.token.start b.token.len) (knowns_in 1 (held text.now rows.now n))) }
{
    v.is_some() && v == find_value(text, rows, n, INPUT, b.token.start, b.token.len)
}

// The entry b has the other side of e's level, or its token, which has the value v.
fn against_one(text: &[u8], rows: &[u16], n: usize, v: Option<usize>, e: Entry, b: Entry) -> bool
    requires { Kept text.now rows.now n }
    ensures { (x : Option ℕ) → v ≡ answer_of x → result ≡ ((eqb e.level b.level && differ e.right b.right) || same_value x (find (part text.now b.token.start b.token.len) (knowns_in 1 (held text.now rows.now n)))) }
{
    other_side(e, b) || has_token(text, rows, n, v, b)
}

// One of the first `count` entries at the place `at` has the other side of e's level, or its token.
fn against(text: &[u8], rows: &[u16], n: usize, at: usize, count: usize, e: Entry) -> bool
    requires { Kept text.now rows.now n × (at ≤ length text.now) }
    ensures { (es : List Operator) (ws' : List Word) → OperatorsIn (words_at text.now at) ws' es → count < length es → (from : ℕ) (o : Operator) (ws₁ : List Word) → EntryIs text.now from o ws₁ e
        → result ≡ against (held text.now rows.now n) (find o.token.text (knowns_in 1 (held text.now rows.now n))) o (take count es) }
{
    let v = find_value(text, rows, n, INPUT, e.token.start, e.token.len);
    let mut i = at;
    for _ in 0..count {
        let b = read_entry(text, i);
        if against_one(text, rows, n, v, e, b) {
            return true;
        }
        i = b.emits.next;
    }
    false
}

// The first declaration that has the value, whatever its class.
fn slot_of(rows: &[u16], n: usize, v: Option<usize>) -> Option<usize>
    requires { n ≤ 512 }
    ensures same { (x : Option ℕ) → v ≡ answer_of x → result ≡ answer_of (slot_of rows.now n x) }
    ensures low { IfSome result (λ i. i < 512) }
{
    let v = v?;
    for i in 0..n {
        if number(rows, ROW * i + VALUE) == v {
            return Some(i);
        }
    }
    None
}

// Where a side of a level is marked.
fn side_slot(level: usize, right: bool) -> usize
    ensures same { result ≡ side_slot level right }
    ensures low { (512 ≤ result) × (result < 544) }
{
    SIDES + 2 * (level % 16) + usize::from(right)
}

// The slot is there, and has no mark.
fn is_free(marks: &[u8; MARKS], slot: Option<usize>) -> bool
    requires { IfSome slot (λ i. i < 512) }
    ensures { result ≡ is_free marks.now slot }
{
    match slot {
        Some(i) => marks[i] == 0,
        None => false,
    }
}

// The token has a value, and no entry that is marked has that or the other side of e's level.
fn is_apart(
    rows: &[u16],
    n: usize,
    marks: &[u8; MARKS],
    v: Option<usize>,
    level: usize,
    right: bool,
) -> bool
    requires { n ≤ 512 }
    ensures { result ≡ true → (x : Option ℕ) → v ≡ answer_of x → Apart rows.now n marks.now level right x }
{
    marks[side_slot(level, !right)] == 0 && is_free(marks, slot_of(rows, n, v))
}

// The marks with those of an entry.
fn mark(
    rows: &[u16],
    n: usize,
    marks: &mut [u8; MARKS],
    v: Option<usize>,
    level: usize,
    right: bool,
)
    requires { (n ≤ 512) × (length marks.old ≡ 544) }
    ensures kept { MarksKept marks.old marks.new }
    ensures marked { (x : Option ℕ) → v ≡ answer_of x → MarkedAs rows.now n marks.new level right x }
{
    let i = side_slot(level, right);
    marks[i] = 1;
    if let Some(j) = slot_of(rows, n, v) {
        marks[j] = 1;
    }
}

// The same as `against`, where the entry is not known to be apart from those before.
fn against_unless(
    text: &[u8],
    rows: &[u16],
    n: usize,
    at: usize,
    count: usize,
    e: Entry,
    apart: bool,
) -> bool
    requires { Kept text.now rows.now n × (at ≤ length text.now) }
    ensures { (es : List Operator) (ws' : List Word) → OperatorsIn (words_at text.now at) ws' es → count < length es → (from : ℕ) (o : Operator) (ws₁ : List Word) → EntryIs text.now from o ws₁ e
        → (apart ≡ true → against (held text.now rows.now n) (find o.token.text (knowns_in 1 (held text.now rows.now n))) o (take count es) ≡ false)
        → result ≡ against (held text.now rows.now n) (find o.token.text (knowns_in 1 (held text.now rows.now n))) o (take count es) }
{
    !apart && against(text, rows, n, at, count, e)
}

// The fault of a word of an entry.
fn word_fault(text: &[u8], fault: base::Fault, w: WordAt) -> Result<(), Refusal>
    ensures { (fault_of result ≡ fault_number fault) × (at_of result ≡ w.start) × (len_of result ≡ length (part text.now w.start w.len)) }
{
    Err(Refusal {
        fault,
        at: w.start,
        len: part_len(text, w.start, w.len),
    })
}

fn is_undeclared(found: Result<usize, base::Fault>) -> bool
    ensures { result ≡ eqb (number_in found) 3 }
{
    found == Err(base::Fault::Undeclared)
}

// The fault of the entry e behind `count` others at the place `at`, from which it may be known to be apart.
fn entry_fault(
    text: &[u8],
    rows: &[u16],
    n: usize,
    at: usize,
    count: usize,
    e: Entry,
    apart: bool,
) -> Result<(), Refusal>
    requires { Kept text.now rows.now n × (at ≤ length text.now) }
    ensures { (es : List Operator) (ws' : List Word) → OperatorsIn (words_at text.now at) ws' es → count < length es → (from : ℕ) (o : Operator) (ws₁ : List Word) → EntryIs text.now from o ws₁ e
        → (apart ≡ true → against (held text.now rows.now n) (find o.token.text (knowns_in 1 (held text.now rows.now n))) o (take count es) ≡ false)
        → Refuses result (entry_fault (held text.now rows.now n) (take count es) o) }
{
    let w = e.token;
    let token = value_of(text, rows, n, INPUT, w.start, w.len);
    if is_undeclared(token) {
        return word_fault(text, base::Fault::Undeclared, w);
    }
    if against_unless(text, rows, n, at, count, e, apart) {
        return word_fault(text, base::Fault::Contradicts, w);
    }
    if let Err(fault) = token {
        return word_fault(text, fault, w);
    }
    match value_of(text, rows, n, OUTPUT, e.emits.start, e.emits.len) {
        Ok(_) => Ok(()),
        Err(fault) => word_fault(text, fault, e.emits),
    }
}

// The first fault of the entries at the place `at`.
fn entries_fault(text: &[u8], rows: &[u16], n: usize, at: usize) -> Result<(), Refusal>
    requires { Kept text.now rows.now n × (at ≤ length text.now) }
    ensures { (es : List Operator) (ws' : List Word) → OperatorsIn (words_at text.now at) ws' es → Refuses result (entries_fault (held text.now rows.now n) [] es) }
{
    let mut marks = [0u8; MARKS];
    let mut i = at;
    let mut count: usize = 0;
    // no range: what is read says where the next begins
    loop {
        let e = read_entry(text, i);
        let v = find_value(text, rows, n, INPUT, e.token.start, e.token.len);
        let apart = is_apart(rows, n, &marks, v, e.level, e.right);
        entry_fault(text, rows, n, at, count, e, apart)?;
        let next = e.emits.next;
        let w = next_word(text, next);
        if w.kind == words::SEMICOLON || next <= i {
            return Ok(());
        }
        mark(rows, n, &mut marks, v, e.level, e.right);
        i = next;
        count += 1;
    }
}

fn operators_fault(text: &[u8], rows: &[u16], n: usize, i: usize) -> Result<(), Refusal>
    requires { Kept text.now rows.now n × (i < n) }
    ensures { (es : List Operator) (ws' : List Word) → OperatorsIn (words_at text.now (decl_at text.now rows.now i).value) ws' es
        → Refuses result (operators_fault (held text.now rows.now n) (held text.now rows.now i) es (decl_at text.now rows.now i)) }
{
    fault_if(text, rows, i, name_taken(text, rows, i, OPERATORS))?;
    entries_fault(text, rows, n, entries_at(text, rows, i))
}

// The fault of declaration i.
fn decl_fault(text: &[u8], rows: &[u16], n: usize, i: usize) -> Result<(), Refusal>
    requires { Kept text.now rows.now n × (i < n) }
    ensures { (es : List Operator) (ws' : List Word) → ((decl_at text.now rows.now i).class ≡ 600 → OperatorsIn (words_at text.now (decl_at text.now rows.now i).value) ws' es)
        → Refuses result (decl_fault (held text.now rows.now n) (held text.now rows.now i) es (decl_at text.now rows.now i)) }
{
    match number(rows, ROW * i) {
        TYPE => fault_if(text, rows, i, name_taken(text, rows, i, TYPE)),
        OPERATION => operation_fault(text, rows, n, i),
        RULE => fault_if(text, rows, i, false),
        OPERATORS => operators_fault(text, rows, n, i),
        _ => fault_if(text, rows, i, entry_again(text, rows, i)),
    }
}

// The first fault of the first n declarations, for all entries that stand at their places.
pub fn check_declarations(text: &[u8], rows: &[u16], n: usize) -> Result<(), Refusal>
    requires { Kept text.now rows.now n }
    ensures { (entries : ℕ → List Operator) → EntriesAt text.now (held text.now rows.now n) entries
        → Refuses result (decl_faults (held text.now rows.now n) entries [] (held text.now rows.now n)) }
{
    for i in 0..n {
        decl_fault(text, rows, n, i)?;
    }
    Ok(())
}

// The list of a common part: its lines stand in rows of rules behind those of the sections.

// An operation has its name, or a rule before it.
fn line_again(text: &[u8], rows: &[u16], i: usize) -> bool
    requires { Kept text.now rows.now i }
    ensures { result ≡ line_again (decl_at text.now rows.now i) (held text.now rows.now i) }
{
    name_taken(text, rows, i, OPERATION) || name_taken(text, rows, i, RULE)
}

// The fault of the line that is declaration i.
fn line_fault(text: &[u8], rows: &[u16], n: usize, i: usize) -> Result<(), Refusal>
    requires { Kept text.now rows.now n × (i ≤ n) }
    ensures { Refuses result (line_fault (held text.now rows.now n) (held text.now rows.now i) (decl_at text.now rows.now i)) }
{
    fault_if(text, rows, i, line_again(text, rows, i))?;
    given_fault(text, rows, n, i)
}

// The first fault of the lines that are the declarations from `first` on, up to `to`.
pub fn check_lines(
    text: &[u8],
    rows: &[u16],
    n: usize,
    first: usize,
    to: usize,
) -> Result<(), Refusal>
    requires { Kept text.now rows.now n × (first ≤ to) × (to ≤ n) }
    ensures { Refuses result (line_faults (held text.now rows.now n) (held text.now rows.now first) (held_from text.now rows.now first (to - first))) }
{
    for i in first..to {
        line_fault(text, rows, n, i)?;
    }
    Ok(())
}
