// The figure Q of a table: numbers by location, raised until none can be raised. The number of a location is one more than the most instructions before it on
// a quiet path, 0 where none comes; behind the locations stand, for each rule, the most instructions of a path that is over, and of one that is back.
// There are two halves of them: the first begins at the rules' starts and says what a call adds; the second begins at every instruction that can be reached.
#![tactic(auto)]

ghost use Rattle.std.specs.Prelude.{◌≡◌, true, ◌||◌, ◌+◌, ◌*◌, ◌-◌, ◌<◌, ◌≤◌, min, length, get_or, set, replicate, unwrap_or, IfSome};
ghost use Rattle.std.proofs.Math.Option.{none, some};
ghost use Rattle.machine.specs.Bytes.{table_of};
ghost use Rattle.meter.specs.Steps.{flag_of, called_of, Kept, Here, Steps, IsBelow, Raised, LabelRaised, MakesAt, RaisedTwo, WaysRaised, Visited, TokenVisited, ValueAt, ValueHere, CallsHere, Values, Behind, ChoiceAt, AskedAt, AskedBelow, AskedFrom, Greatest, ZeroIn, NoneCalled, Begun, Settled, rule_in, table_in, called_in, KeptIn, StepsIn};
ghost use Rattle.machine.specs.Decode.{call_rule, choice, decode_one, decode_two, decode};
ghost use Rattle.meter.specs.Shaped.{Rising, Between, index_of, end_of, InRule, Fits, Shaped};
ghost use Rattle.meter.specs.Found.{Found};
ghost use Rattle.meter.specs.Store.{at_cap, numbers_of, called_numbers};
ghost use Rattle.figure.specs.Figure.{way_out};

// Places in a half: the locations, then the paths of each rule that are over and those that are back.
const OVER: usize = 4097;

const BACK: usize = 4225;

const HALF: usize = 4353;

// Past the greatest figure: numbers stop here.
const CAP: u64 = 4294967296;

// The store of a half: a word for each number, then a bit for each, set where the number is CAP.
const WORD_BITS: usize = 32;

const LAST_WORD: usize = HALF - WORD_BITS;

pub const ROWS: usize = 4490;

// Instructions as the words of a table are.
const CALL: usize = machine::CALL as usize;

const SET_RESULT: usize = machine::SET_RESULT as usize;

const CHOICE: usize = machine::CHOICE as usize;

// Whether the number at an index is CAP.
fn at_cap(rows: &[u32], i: usize) -> bool
    requires { (length rows.now ≡ 4490) × (i < 4353) }
    ensures { result ≡ at_cap rows.now i }
{
    (rows[HALF + i / WORD_BITS] >> (i % WORD_BITS)) & 1 == 1
}

// The number at an index.
fn number(rows: &[u32], i: usize) -> u64
    requires { length rows.now ≡ 4490 }
    ensures { result ≡ get_or (numbers_of rows.now) i 0 }
{
    if HALF <= i {
        return 0;
    }
    if at_cap(rows, i) {
        return CAP;
    }
    u64::from(rows[i])
}

// A number becomes v, which is more: no bit is ever cleared.
fn put(rows: &mut [u32], i: usize, v: u64)
    requires { (length rows.old ≡ 4490) × (i < 4353) × (get_or (numbers_of rows.old) i 0 < v) × (v ≤ 4294967296) }
    ensures { numbers_of rows.new ≡ set (numbers_of rows.old) i v }
{
    if v < CAP {
        rows[i] = v as u32;
        return;
    }
    let at = HALF + i / WORD_BITS;
    rows[at] |= 1 << (i % WORD_BITS);
}

fn capped(v: u64) -> u64
    ensures { result ≡ min v 4294967296 }
{
    v.min(CAP)
}

// Whether v would raise a number; locations past the last have none.
fn is_below(rows: &[u32], i: usize, v: u64) -> bool
    requires { length rows.now ≡ 4490 }
    ensures { IsBelow i v (numbers_of rows.now) result }
{
    i < HALF && number(rows, i) < capped(v)
}

// A number is raised, where it is less.
fn raise(rows: &mut [u32], i: usize, v: u64) -> bool
    requires { length rows.old ≡ 4490 }
    ensures { Raised i v (numbers_of rows.old) (numbers_of rows.new) result }
{
    if is_below(rows, i, v) {
        put(rows, i, capped(v));
        return true;
    }
    false
}

// What begins a path in the second half: every instruction that can be reached.
fn mark_of(called: &[u32]) -> u64
    ensures { result ≡ flag_of (called_numbers called.now) }
{
    if called.len() == ROWS { 1 } else { 0 }
}

// A number of a called rule: of the first half where it is lent, else of the half that is raised.
fn called_number(called: &[u32], rows: &[u32], i: usize) -> u64
    requires { length rows.now ≡ 4490 }
    ensures { result ≡ called_of (called_numbers called.now) (numbers_of rows.now) i }
{
    if called.len() == ROWS {
        return number(called, i);
    }
    number(rows, i)
}

// How many rules start before a location.
fn starts_before(starts: &[usize], s: usize) -> usize
    requires { Rising starts.now }
    ensures { Between starts.now s result result }
{
    starts.partition_point(|start| *start < s)
}

// Which rule starts at a location.
fn rule_at(starts: &[usize], s: usize) -> Option<usize>
    requires { Rising starts.now }
    ensures index { unwrap_or result (length starts.now) ≡ index_of starts.now s }
    ensures within { IfSome result (λ r. r < length starts.now) }
{
    let r = starts_before(starts, s);
    if r < starts.len() && starts[r] == s {
        Some(r)
    } else {
        None
    }
}

// Where the words of a rule end.
fn end_of(starts: &[usize], r: usize, size: usize) -> usize
    requires { (r < 1000) × (size < 10000) }
    ensures { result ≡ end_of size starts.now r }
{
    starts.get(r + 1).copied().unwrap_or(size + 1)
}

// Where the choice with its table at c goes by a value.
fn way_out(table: &[u8], c: usize, v: usize) -> usize
    requires { Fits (table_of table.now) c }
    ensures { result ≡ way_out (table_of table.now) c (some v) }
{
    let n = loader::word_at(table, c);
    for i in 0..n {
        let l = c + 1 + 2 * i;
        if loader::word_at(table, l) == v {
            return (l + 1).saturating_sub(loader::word_at(table, l + 1));
        }
    }
    c + 1 + 2 * n
}

// Two places are raised.
fn raise_two(rows: &mut [u32], i: usize, v: u64, j: usize, w: u64) -> bool
    requires { length rows.old ≡ 4490 }
    ensures { RaisedTwo i v j w (numbers_of rows.old) (numbers_of rows.new) result }
{
    let a = raise(rows, i, v);
    let b = raise(rows, j, w);
    a | b
}

// The way by label i of the choice with its table at c. What stands beside the label is its way, or else a label before it is the same: so nothing is sought
// where that way has enough.
fn raise_label(table: &[u8], c: usize, i: usize, v: u64, rows: &mut [u32]) -> bool
    requires { Fits (table_of table.now) c × (c + 2 * i + 2 ≤ length (table_of table.now)) × (length rows.old ≡ 4490) }
    ensures { LabelRaised (table_of table.now) c i v (numbers_of rows.old) (numbers_of rows.new) result }
{
    let l = c + 1 + 2 * i;
    let beside = (l + 1).saturating_sub(loader::word_at(table, l + 1));
    is_below(rows, beside, v) && raise(rows, way_out(table, c, loader::word_at(table, l)), v)
}

// Every way out of the choice with its table at c.
fn raise_ways(table: &[u8], c: usize, v: u64, rows: &mut [u32]) -> bool
    requires { Fits (table_of table.now) c × (length rows.old ≡ 4490) }
    ensures { WaysRaised (table_of table.now) c v (numbers_of rows.old) (numbers_of rows.new) result }
{
    if v == 0 {
        return false;
    }
    let n = loader::word_at(table, c);
    let mut changed = false;
    for i in 0..n {
        let more = raise_label(table, c, i, v, rows);
        changed |= more;
    }
    let last = raise(rows, c + 1 + 2 * n, v);
    changed | last
}

// What numbers are raised over: the table, where its rules start, and the half that says what a call adds; empty as long as that one is raised.
#[derive(Clone, Copy)]
struct Program<'a> {
    table: &'a [u8],
    starts: &'a [usize],
    called: &'a [u32],
}

// A place in a rule: the rule, the location and its number.
#[derive(Clone, Copy, Debug, PartialEq, Eq)]
struct Spot {
    rule: usize,
    at: usize,
    number: u64,
}

// An instruction of one word.
fn visit_one(i: u16, called: &[u32], here: Spot, rows: &mut [u32]) -> bool
    requires { (length rows.old ≡ 4490) × (here.rule < 128) × (here.at < 10000) × (here.number ≤ 4294967296) }
    ensures { Visited (decode_one i) (called_numbers called.now) here.rule here.at here.number (numbers_of rows.old) (numbers_of rows.new) result }
{
    let next = here.at + 1;
    let over = OVER + here.rule;
    match i {
        machine::RETURN => raise(rows, BACK + here.rule, here.number),
        machine::END_CHOICE => raise(rows, over, here.number),
        machine::INPUT_ANY => raise_two(rows, over, here.number, next, mark_of(called)),
        _ if i < machine::ASK => raise(rows, next, here.number + 1),
        _ => raise_two(rows, over, here.number, next, here.number + 1),
    }
}

// A choice by the present token, with its table at c.
fn visit_token(program: Program, c: usize, here: Spot, rows: &mut [u32]) -> bool
    requires { Fits (table_in program) c × (length rows.old ≡ 4490) × (here.rule < 128) × (here.number ≤ 4294967296) }
    ensures { TokenVisited (table_in program.entry) c (called_in program.entry) here.rule here.at here.number (numbers_of rows.old) (numbers_of rows.new) result }
{
    let a = raise_ways(program.table, c, mark_of(program.called), rows);
    let default = c + 1 + 2 * loader::word_at(program.table, c);
    let b = raise_two(
        rows,
        OVER + here.rule,
        here.number,
        default,
        here.number + 1,
    );
    a | b
}

// Behind a call and through the choice with its table at c, by the value that is set at p.
fn raise_value(program: Program, p: usize, c: usize, here: Spot, rows: &mut [u32]) -> bool
    requires { KeptIn program rows.old × ValueHere (table_in program) program.starts.now (called_in program) here.rule here.at here.number c p × (length rows.old ≡ 4490) }
    ensures { StepsIn program.entry (ValueAt (table_in program.entry) (called_in program.entry) c here.number p) rows.old rows.new result }
{
    let table = program.table;
    if loader::word_at(table, p) != SET_RESULT || loader::size_of(table) <= p {
        return false;
    }
    let m = called_number(program.called, rows, p);
    if m == 0 {
        return false;
    }
    let way = way_out(table, c, loader::word_at(table, p + 1));
    raise(rows, way, here.number + m + 3)
}

// The numbers from i on whose bits stand in one word are 0.
fn is_clear(rows: &[u32], i: usize) -> bool
    requires { (length rows.now ≡ 4490) × (i + 32 ≤ 4353) }
    ensures { result ≡ true → ZeroIn (numbers_of rows.now) i (i + 32) }
{
    if i % WORD_BITS != 0 {
        return false;
    }
    let mut clear = rows[HALF + i / WORD_BITS] == 0;
    // no early way out: so many are compared at once
    for j in 0..WORD_BITS {
        clear &= rows[i + j] == 0;
    }
    clear
}

// Past numbers that are 0, from i on and before an end: as many at once as have their bits in one word, or one, or none.
fn past_zeros(rows: &[u32], i: usize, to: usize) -> usize
    requires { (length rows.now ≡ 4490) × (i < to) }
    ensures { (i ≤ result) × (result ≤ to) × ZeroIn (numbers_of rows.now) i result }
{
    if i < LAST_WORD {
        if is_clear(rows, i) {
            if to < i + WORD_BITS {
                return to;
            }
            return i + WORD_BITS;
        }
    }
    if number(rows, i) == 0 {
        return i + 1;
    }
    i
}

// The first place from i on, before an end, with a number; the end where none has one.
#[inline(always)]
fn next_numbered(rows: &[u32], i: usize, to: usize) -> usize
    requires { (length rows.now ≡ 4490) × (i ≤ to) }
    ensures { (i ≤ result) × (result ≤ to) × ZeroIn (numbers_of rows.now) i result }
{
    let mut at = i;
    // no range: a step is as long as its zeros
    while at < to {
        let next = past_zeros(rows, at, to);
        if next == at {
            return at;
        }
        at = next;
    }
    at
}

// The same among the numbers of called rules.
fn next_called(called: &[u32], rows: &[u32], i: usize, to: usize) -> usize
    requires { (length rows.now ≡ 4490) × (i ≤ to) }
    ensures { (i ≤ result) × (result ≤ to) × NoneCalled (called_numbers called.now) (numbers_of rows.now) i result }
{
    if called.len() == ROWS {
        return next_numbered(called, i, to);
    }
    next_numbered(rows, i, to)
}

// The location of the table of the choice at l.
fn choice_at(table: &[u8], l: usize) -> Option<usize>
    requires { (1 ≤ l) × (l < 10000) }
    ensures { ChoiceAt (table_of table.now) l result }
{
    if l < loader::size_of(table) && loader::word_at(table, l) == CHOICE {
        Some(l + 1 + loader::word_at(table, l + 1))
    } else {
        None
    }
}

// The same for each value with which rule q can be back.
#[inline(never)]
fn raise_values(program: Program, q: usize, c: usize, here: Spot, rows: &mut [u32]) -> bool
    requires { KeptIn program rows.old × CallsHere (table_in program) program.starts.now (called_in program) here.rule here.at here.number q × (decode (table_in program) (here.at + 2) ≡ choice c) × (length rows.old ≡ 4490) }
    ensures { StepsIn program.entry (Values (table_in program.entry) program.entry.starts.now (called_in program.entry) c here.number q (end_of (length (table_in program.entry)) program.entry.starts.now q)) rows.old rows.new result }
{
    let to = end_of(program.starts, q, loader::size_of(program.table));
    let mut changed = false;
    let mut p = program.starts[q];
    // no range: places with no number are passed over
    while p < to {
        let more = raise_value(program, p, c, here, rows);
        p = next_called(program.called, rows, p + 1, to);
        // a test in the place of `|=`: on the ways that raise nothing, nothing is written
        if more {
            changed = true;
        }
    }
    changed
}

// What is behind a call of rule q.
fn raise_behind(program: Program, q: usize, here: Spot, rows: &mut [u32]) -> bool
    requires { KeptIn program rows.old × CallsHere (table_in program) program.starts.now (called_in program) here.rule here.at here.number q × (length rows.old ≡ 4490) }
    ensures { StepsIn program.entry (Behind (table_in program.entry) program.entry.starts.now (called_in program.entry) here.at here.number q) rows.old rows.new result }
{
    let next = here.at + 2;
    if let Some(c) = choice_at(program.table, next) {
        return raise_values(program, q, c, here, rows);
    }
    let m = called_number(program.called, rows, BACK + q);
    if m == 0 {
        return false;
    }
    raise(rows, next, here.number + m + 1)
}

// A call of the rule that starts at s.
fn raise_call(program: Program, s: usize, here: Spot, rows: &mut [u32]) -> bool
    requires { KeptIn program rows.old × Here (table_in program) program.starts.now (called_in program) here.rule here.at here.number × (decode (table_in program) here.at ≡ call_rule s) × (length rows.old ≡ 4490) }
    ensures { StepsIn program.entry (MakesAt (table_in program.entry) program.entry.starts.now (called_in program.entry) here.rule here.at here.number (call_rule s)) rows.old rows.new result }
{
    // a rule starts there
    let q = starts_before(program.starts, s);
    let o = here.number + called_number(program.called, rows, OVER + q);
    let mark = mark_of(program.called);
    let a = raise_two(rows, OVER + here.rule, o, here.at + 2, mark);
    let b = raise_behind(program, q, here, rows);
    a | b
}

// An instruction of two words.
fn visit_two(program: Program, i: u16, x: usize, here: Spot, rows: &mut [u32]) -> bool
    requires { KeptIn program rows.old × Here (table_in program) program.starts.now (called_in program) here.rule here.at here.number × (decode (table_in program) here.at ≡ decode_two here.at i x) × (x < 65536) × (length rows.old ≡ 4490) }
    ensures { StepsIn program.entry (MakesAt (table_in program.entry) program.entry.starts.now (called_in program.entry) here.rule here.at here.number (decode_two here.at i x)) rows.old rows.new result }
{
    let l = here.at;
    let more = here.number + 1;
    match i {
        machine::JUMP_FORWARD => raise(rows, l + 1 + x, more),
        machine::JUMP_BACK => raise(rows, (l + 1).saturating_sub(x), more),
        machine::INPUT => raise_two(
            rows,
            OVER + here.rule,
            here.number,
            l + 2,
            mark_of(program.called),
        ),
        machine::INPUT_CHOICE => visit_token(program, l + 1 + x, here, rows),
        machine::CALL => raise_call(program, x, here, rows),
        machine::CHOICE => raise_ways(program.table, l + 1 + x, more, rows),
        _ => raise(rows, l + 2, more),
    }
}

// What the instruction at a location of a rule asks for.
fn visit(program: Program, rule: usize, at: usize, rows: &mut [u32]) -> bool
    requires { KeptIn program rows.old × (rule < length program.starts.now) × InRule (table_in program) program.starts.now rule at × (length rows.old ≡ 4490) }
    ensures { StepsIn program.entry (AskedAt (table_in program.entry) program.entry.starts.now (called_in program.entry) rule at) rows.old rows.new result }
{
    let table = program.table;
    let size = loader::size_of(table);
    if at == 0 || size < at {
        return false;
    }
    let number = number(rows, at);
    if number == 0 {
        return false;
    }
    let here = Spot { rule, at, number };
    let i = machine::word(table, at - 1);
    let k = machine::instruction_length(i);
    if k == 0 {
        return false;
    }
    if k == 1 {
        return visit_one(i, program.called, here, rows);
    }
    if size < at + 1 {
        return false;
    }
    let x = loader::word_at(table, at + 1);
    visit_two(program, i, x, here, rows)
}

// What the instructions of a rule ask for.
fn sweep_rule(program: Program, r: usize, rows: &mut [u32]) -> bool
    requires { KeptIn program rows.old × (r < length program.starts.now) × (length rows.old ≡ 4490) }
    ensures { StepsIn program.entry (AskedBelow (table_in program.entry) program.entry.starts.now (called_in program.entry) r (end_of (length (table_in program.entry)) program.entry.starts.now r)) rows.old rows.new result }
{
    let to = end_of(program.starts, r, loader::size_of(program.table));
    let mut changed = false;
    for l in program.starts[r]..to {
        let more = visit(program, r, l, rows);
        changed |= more;
    }
    changed
}

// Which way a sweep goes over the rules: down is good for rules that call later ones, up for those that call earlier ones.
#[derive(Clone, Copy, Debug, PartialEq, Eq)]
enum Direction {
    Down,
    Up,
}

impl Direction {
    fn opposite(self) -> Direction {
        match self {
            Direction::Down => Direction::Up,
            Direction::Up => Direction::Down,
        }
    }

    // The rule that comes i-th, of n.
    fn rule(self, n: usize, i: usize) -> usize
        requires { i < n }
        ensures { result ≡ rule_in self n i }
    {
        match self {
            Direction::Down => n - 1 - i,
            Direction::Up => i,
        }
    }
}

// One sweep over all rules.
fn sweep(program: Program, direction: Direction, rows: &mut [u32]) -> bool
    requires { KeptIn program rows.old × (length rows.old ≡ 4490) }
    ensures { StepsIn program.entry (AskedFrom (table_in program.entry) program.entry.starts.now (called_in program.entry) 0) rows.old rows.new result }
{
    let mut changed = false;
    let n = program.starts.len();
    for i in 0..n {
        let r = direction.rule(n, i);
        let more = sweep_rule(program, r, rows);
        changed |= more;
    }
    changed
}

// A set of rules, a bit for each. Two words: one of 128 bits was tried, and took 3 of 100 instructions more for rules in a zigzag.
#[derive(Clone, Copy, Debug, PartialEq, Eq)]
struct Due {
    lo: u64,
    hi: u64,
}

const NONE_DUE: Due = Due { lo: 0, hi: 0 };

// Rounds end long before there are so many.
const MOST_ROUNDS: usize = 10000;

fn is_due(d: Due, r: usize) -> bool {
    match r {
        0..=63 => (d.lo >> r) & 1 == 1,
        64..=127 => (d.hi >> (r - 64)) & 1 == 1,
        _ => false,
    }
}

// The set, with r where it is to be.
fn with_due(d: Due, r: usize, on: bool) -> Due {
    if !on {
        return d;
    }
    if r < 64 {
        return Due {
            lo: d.lo | (1 << r),
            ..d
        };
    }
    if r < 128 {
        return Due {
            hi: d.hi | (1 << (r - 64)),
            ..d
        };
    }
    d
}

// The rules that rounds have raised: in the round before, and in this one so far.
#[derive(Clone, Copy, Debug, PartialEq, Eq)]
struct Raisings {
    before: Due,
    now: Due,
}

// Rule q was raised since rule r was swept: rules are swept from the last on.
fn is_changed(s: Raisings, q: usize, r: usize) -> bool {
    is_due(s.now, q) || q <= r && is_due(s.before, q)
}

// The word at a location is that of a call, and the rule that is called was raised since rule r was swept.
fn calls_changed(program: Program, s: Raisings, r: usize, l: usize) -> bool
    requires { Rising program.starts.now × (1 ≤ l) × (l < length (table_in program)) × (length (table_in program) ≤ 4096) }
{
    if loader::word_at(program.table, l) != CALL {
        return false;
    }
    match rule_at(program.starts, loader::word_at(program.table, l + 1)) {
        Some(q) => is_changed(s, q, r),
        None => false,
    }
}

// Where a rule starts, 1 at least.
fn place(starts: &[usize], i: usize) -> usize
    ensures { 1 ≤ result }
{
    starts.get(i).copied().unwrap_or(1).max(1)
}

// Where a rule starts, the table's size at most.
fn upper(table: &[u8], starts: &[usize], i: usize) -> usize
    ensures { result ≤ length (table_of table.now) }
{
    let n = loader::size_of(table);
    starts.get(i).copied().unwrap_or(n).min(n)
}

// Rule r calls one that was raised since it was swept.
fn has_changed_call(program: Program, s: Raisings, r: usize) -> bool
    requires { Rising program.starts.now × (r < 1000) × (length (table_in program) ≤ 4096) }
{
    for l in place(program.starts, r)..upper(program.table, program.starts, r + 1) {
        if calls_changed(program, s, r, l) {
            return true;
        }
    }
    false
}

// Rule r is to be swept: it was raised in the round before or, as long as the numbers of called rules rise, one that it calls was. Nothing depends on it but
// the number of visits.
fn is_pending(program: Program, s: Raisings, r: usize, first: bool) -> bool
    requires { Rising program.starts.now × (r < 1000) × (length (table_in program) ≤ 4096) }
{
    is_due(s.before, r) || first && has_changed_call(program, s, r)
}

// A rule is swept, where that is due.
fn sweep_if(program: Program, r: usize, rows: &mut [u32], on: bool) -> bool
    requires { KeptIn program rows.old × (r < length program.starts.now) × (length rows.old ≡ 4490) }
    ensures { StepsIn program.entry (AskedFrom (table_in program.entry) program.entry.starts.now (called_in program.entry) (length program.entry.starts.now)) rows.old rows.new result }
{
    on && sweep_rule(program, r, rows)
}

// What a round over the rules brought: whether a number was raised, and in which rules.
#[derive(Clone, Copy, Debug, PartialEq, Eq)]
struct Brought {
    changed: bool,
    raised: Due,
}

// The rules that are due swept, the last first, where those of `raised` were raised in the round before.
fn round(program: Program, raised: Due, rows: &mut [u32]) -> Brought
    requires { KeptIn program rows.old × (length rows.old ≡ 4490) }
    ensures { StepsIn program.entry (AskedFrom (table_in program.entry) program.entry.starts.now (called_in program.entry) (length program.entry.starts.now)) rows.old rows.new result.changed }
{
    let first = program.called.len() != ROWS;
    let mut changed = false;
    let mut now = NONE_DUE;
    for r in (0..program.starts.len()).rev() {
        let s = Raisings {
            before: raised,
            now,
        };
        let on = is_pending(program, s, r, first);
        let more = sweep_if(program, r, rows, on);
        changed |= more;
        now = with_due(now, r, more);
    }
    Brought {
        changed,
        raised: now,
    }
}

// Rounds until nothing is due, or many of them.
fn rounds(program: Program, rows: &mut [u32]) -> bool
    requires { KeptIn program rows.old × (length rows.old ≡ 4490) }
    ensures { StepsIn program.entry (AskedFrom (table_in program.entry) program.entry.starts.now (called_in program.entry) (length program.entry.starts.now)) rows.old rows.new result }
{
    let mut changed = false;
    let mut due = Due {
        lo: u64::MAX,
        hi: u64::MAX,
    };
    for _ in 0..MOST_ROUNDS {
        let t = round(program, due, rows);
        changed |= t.changed;
        due = t.raised;
        if due == NONE_DUE {
            break;
        }
    }
    changed
}

// Rounds, where they are due by now.
fn rounds_if(program: Program, late: bool, rows: &mut [u32]) -> bool
    requires { KeptIn program rows.old × (length rows.old ≡ 4490) }
    ensures { StepsIn program.entry (AskedFrom (table_in program.entry) program.entry.starts.now (called_in program.entry) (length program.entry.starts.now)) rows.old rows.new result }
{
    late && rounds(program, rows)
}

// Sweeps down and up in turn, late ones behind rounds, until one raises nothing.
fn settle(program: Program, rows: &mut [u32])
    requires { KeptIn program rows.old × (length rows.old ≡ 4490) }
    ensures { Settled (table_in program.entry) program.entry.starts.now (called_in program.entry) (numbers_of rows.old) (numbers_of rows.new) }
{
    let mut changed = true;
    let mut direction = Direction::Down;
    let mut early = 5usize;
    // no range: until a sweep raises nothing
    while changed {
        rounds_if(program, early == 0, rows);
        changed = sweep(program, direction, rows);
        direction = direction.opposite();
        early = early.saturating_sub(1);
    }
}

// The rules' starts get the number 1.
fn begin(program: Program, rows: &mut [u32])
    requires { KeptIn program rows.old × (length rows.old ≡ 4490) }
    ensures { Begun (table_in program.entry) program.entry.starts.now (called_in program.entry) (numbers_of rows.new) }
{
    for start in program.starts {
        raise(rows, *start, 1);
    }
}

// The greatest number from an index on.
fn greatest(rows: &[u32], from: usize) -> u64
    requires { length rows.now ≡ 4490 }
    ensures { Greatest (numbers_of rows.now) from result }
{
    let mut most = 0;
    for i in from..HALF {
        most = most.max(number(rows, i));
    }
    most
}

// The figure of a table whose rules start at these locations; 4,294,967,296 where it is more than 4,294,967,295. The two halves of the numbers are lent.
pub fn figure(table: &[u8], starts: &[usize], called: &mut [u32], rows: &mut [u32]) -> u64
    requires { Shaped (table_of table.now) starts.now × (length called.old ≡ 4490) × (length rows.old ≡ 4490) }
    ensures { Found (table_of table.now) starts.now result }
{
    called.fill(0);
    rows.fill(0);
    let first = Program {
        table,
        starts,
        called: &rows[..0],
    };
    begin(first, called);
    settle(first, called);
    let second = Program {
        table,
        starts,
        called,
    };
    begin(second, rows);
    settle(second, rows);
    greatest(rows, OVER)
}
