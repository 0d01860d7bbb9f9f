// Objects that anybody wrote, read from their words: definitions, theorems, and the code that goes over the words by places.
#![tactic(auto)]

ghost use Rattle.std.specs.Prelude.{true, false, ◌&&◌, ◌||◌, List, [], ◌++◌, ◌≡◌, ℕ, ◌+◌, ◌*◌, ◌<◌, ◌≤◌, IfSome, length, get_or, take, drop};
ghost use Rattle.std.proofs.Math.Option.{Option};
ghost use Rattle.base.specs.Common.{same};
ghost use Rattle.machine.specs.Bytes.{words_of};
ghost use Rattle.declarations.specs.Decls.{index_of};
ghost use Rattle.names.specs.Known.{Names};
ghost use Rattle.names.specs.Understand.{is_one};
ghost use Rattle.parts.specs.Form.{packed};
ghost use Rattle.symbols.specs.Rows.{decl_at, held, number_of};
ghost use Rattle.symbols.specs.Search.{part, named};
ghost use Rattle.symbols.specs.Search as search;
ghost use Rattle.syntax.specs.Texts.{Head};
ghost use Rattle.objects.specs.Cells.{along, yes, Fits, Tells, OperandDone, NameDone, CallOk, RuleOk, SimpleDone, AskedDone, SortDone, ChoiceDone, ActsDone, ArmsDone, LastDone, BareDone, LabelsDone, BodyDone};
ghost use Rattle.objects.specs.Order.{Went, stands_at, is_listed, rule_in_order, sort_of, turns, used_up};
ghost use Rattle.objects.specs.Places.{Ends, NameAt, HeadsAt, SectionsAt, PartsAt};
ghost use Rattle.objects.specs.Take.{took, some_words, the_words, times};
ghost use Rattle.objects.specs.View.{Name, Pair, RuleView, View, pair_words, rule_words, view_words, a_name, an_option, a_pair, some_calls, some_cells, a_rule, a_body, a_view};
ghost use Rattle.objects.specs.Whole.{calls_of, texts_of, every, pair_in_order, view_in_order, are_objects, good_views, evenly};

// `PO`, the first word of an object.
const MARK: usize = 20559;

// The words of an object before the common part, and where the numbers of its rules and of its pairs stand.
const HEADER: usize = 7;

const RULE_COUNT: usize = 5;

const PAIR_COUNT: usize = 6;

// The numbers that a caller lends of each line of the common part's list: where the rule's name starts and its length, and the same of its type.
pub const HEAD_NUMBERS: usize = 4;

// The number of the words, and the word at i as a number: 0 past the last.
pub fn total(objects: &[u8]) -> usize
    ensures { (result ≡ length (words_of objects.now)) × (result < 9223372036854775808) }
{
    machine::count_words(objects)
}

pub fn number(objects: &[u8], i: usize) -> usize
    ensures { (result ≡ get_or (words_of objects.now) i 0) × (result < 65536) }
{
    usize::from(machine::word(objects, i))
}

// The place behind n words from `at` on; none where there are fewer. The functions below go by this too.
pub fn past_words(objects: &[u8], at: usize, n: usize) -> Option<usize>
    requires { at ≤ length (words_of objects.now) }
    ensures ends { Ends (some_words n) (words_of objects.now) at result }
    ensures within { IfSome result (λ r. r ≤ length (words_of objects.now)) }
{
    if n <= total(objects) - at {
        Some(at + n)
    } else {
        None
    }
}

// A name: where it stands, its length, its bytes.
pub fn past_name(objects: &[u8], at: usize) -> Option<usize>
    requires { at ≤ length (words_of objects.now) }
    ensures ends { Ends a_name (words_of objects.now) at result }
    ensures within { IfSome result (λ r. r ≤ length (words_of objects.now)) }
{
    if total(objects) - at < 2 {
        return None;
    }
    past_words(objects, at + 2, number(objects, at + 1))
}

// This loop and those of the pairs and of the rules stay apart: one over a closure needs a relation of n calls in its contract, and is no plainer.
pub fn past_names(objects: &[u8], at: usize, n: usize) -> Option<usize>
    requires { at ≤ length (words_of objects.now) }
    ensures ends { Ends (times n a_name) (words_of objects.now) at result }
    ensures within { IfSome result (λ r. r ≤ length (words_of objects.now)) }
{
    let mut p = at;
    for _ in 0..n {
        p = past_name(objects, p)?;
    }
    Some(p)
}

// 0, or 1 and a name.
pub fn past_option(objects: &[u8], at: usize) -> Option<usize>
    requires { at ≤ length (words_of objects.now) }
    ensures ends { Ends an_option (words_of objects.now) at result }
    ensures within { IfSome result (λ r. r ≤ length (words_of objects.now)) }
{
    if at == total(objects) {
        return None;
    }
    match number(objects, at) {
        0 => Some(at + 1),
        1 => past_name(objects, at + 1),
        _ => None,
    }
}

// A pair: the `^`, its section and its operand rule.
pub fn past_pair(objects: &[u8], at: usize) -> Option<usize>
    requires { at ≤ length (words_of objects.now) }
    ensures ends { Ends a_pair (words_of objects.now) at result }
    ensures within { IfSome result (λ r. r ≤ length (words_of objects.now)) }
{
    if total(objects) - at < 2 {
        return None;
    }
    let operand = past_name(objects, at + 2)?;
    past_name(objects, operand)
}

pub fn past_pairs(objects: &[u8], at: usize, n: usize) -> Option<usize>
    requires { at ≤ length (words_of objects.now) }
    ensures ends { Ends (times n a_pair) (words_of objects.now) at result }
    ensures within { IfSome result (λ r. r ≤ length (words_of objects.now)) }
{
    let mut p = at;
    for _ in 0..n {
        p = past_pair(objects, p)?;
    }
    Some(p)
}

// As many names as a word says.
pub fn past_calls(objects: &[u8], at: usize) -> Option<usize>
    requires { at ≤ length (words_of objects.now) }
    ensures ends { Ends some_calls (words_of objects.now) at result }
    ensures within { IfSome result (λ r. r ≤ length (words_of objects.now)) }
{
    if at == total(objects) {
        return None;
    }
    past_names(objects, at + 1, number(objects, at))
}

// As many cells as a word says.
pub fn past_cells(objects: &[u8], at: usize) -> Option<usize>
    requires { at ≤ length (words_of objects.now) }
    ensures ends { Ends some_cells (words_of objects.now) at result }
    ensures within { IfSome result (λ r. r ≤ length (words_of objects.now)) }
{
    if at == total(objects) {
        return None;
    }
    past_words(objects, at + 1, number(objects, at))
}

// A rule: its name, its type, the names of its calls, its cells.
pub fn past_rule(objects: &[u8], at: usize) -> Option<usize>
    requires { at ≤ length (words_of objects.now) }
    ensures ends { Ends a_rule (words_of objects.now) at result }
    ensures within { IfSome result (λ r. r ≤ length (words_of objects.now)) }
{
    let gives = past_name(objects, at)?;
    let calls = past_option(objects, gives)?;
    let cells = past_calls(objects, calls)?;
    past_cells(objects, cells)
}

pub fn past_rules(objects: &[u8], at: usize, n: usize) -> Option<usize>
    requires { at ≤ length (words_of objects.now) }
    ensures ends { Ends (times n a_rule) (words_of objects.now) at result }
    ensures within { IfSome result (λ r. r ≤ length (words_of objects.now)) }
{
    let mut p = at;
    for _ in 0..n {
        p = past_rule(objects, p)?;
    }
    Some(p)
}

// The word at i of the bytes of a common part, two a word.
fn common_word(common: &[u8], i: usize) -> usize
    requires { 2 * i < length common.now }
    ensures { result ≡ get_or (packed common.now) i 0 }
{
    let at = 2 * i;
    let high = 256 * usize::from(common[at]);
    if at + 1 < common.len() {
        high + usize::from(common[at + 1])
    } else {
        high
    }
}

// The bytes of the common part, and no others.
fn past_common(objects: &[u8], at: usize, common: &[u8]) -> Option<usize>
    requires { at ≤ length (words_of objects.now) }
    ensures ends { Ends (the_words (packed common.now)) (words_of objects.now) at result }
    ensures within { IfSome result (λ r. r ≤ length (words_of objects.now)) }
{
    let n = common.len() / 2 + common.len() % 2;
    if n > total(objects) - at {
        return None;
    }
    for i in 0..n {
        if number(objects, at + i) != common_word(common, i) {
            return None;
        }
    }
    Some(at + n)
}

// What stands behind the length of an object: four numbers, the common part, pairs, rules.
fn past_body(objects: &[u8], at: usize, common: &[u8]) -> Option<usize>
    requires { at ≤ length (words_of objects.now) }
    ensures ends { Ends (a_body common.now) (words_of objects.now) at result }
    ensures within { IfSome result (λ r. r ≤ length (words_of objects.now)) }
{
    if total(objects) - at < 4 || number(objects, at) != common.len() {
        return None;
    }
    let pairs = past_common(objects, at + 4, common)?;
    let rules = past_pairs(objects, pairs, number(objects, at + 3))?;
    past_rules(objects, rules, number(objects, at + 2))
}

// An object: `PO`, the number of the words behind these three, and those.
pub fn past_view(objects: &[u8], at: usize, common: &[u8]) -> Option<usize>
    requires { at ≤ length (words_of objects.now) }
    ensures ends { Ends (a_view common.now) (words_of objects.now) at result }
    ensures within { IfSome result (λ r. r ≤ length (words_of objects.now)) }
{
    if total(objects) - at < 3 || number(objects, at) != MARK {
        return None;
    }
    let next = past_body(objects, at + 3, common)?;
    let size = next - (at + 3);
    if number(objects, at + 1) == size / 65536 && number(objects, at + 2) == size % 65536 {
        Some(next)
    } else {
        None
    }
}

// Whether the names at two places have the same bytes.
pub fn same_names(objects: &[u8], p: usize, q: usize) -> bool
    requires { (p ≤ length (words_of objects.now)) × (q ≤ length (words_of objects.now)) }
    ensures { (n m : Name) → NameAt (words_of objects.now) p n → NameAt (words_of objects.now) q m → result ≡ same n.text m.text }
{
    let end = total(objects);
    if p == end || q == end {
        return false;
    }
    let size = number(objects, p + 1);
    if number(objects, q + 1) != size {
        return false;
    }
    for i in 0..size {
        if number(objects, p + 2 + i) != number(objects, q + 2 + i) {
            return false;
        }
    }
    true
}

// Whether the name at a place has these bytes of the common part.
pub fn same_common(objects: &[u8], p: usize, common: &[u8], start: usize, size: usize) -> bool
    requires { (p ≤ length (words_of objects.now)) × (start + size ≤ length common.now) }
    ensures { (n : Name) → NameAt (words_of objects.now) p n → result ≡ same n.text (take size (drop start common.now)) }
{
    if p == total(objects) || number(objects, p + 1) != size {
        return false;
    }
    for i in 0..size {
        if number(objects, p + 2 + i) != usize::from(common[start + i]) {
            return false;
        }
    }
    true
}

// The same for bytes that may lie outside: they are no name.
pub fn is_part(objects: &[u8], p: usize, common: &[u8], start: usize, size: usize) -> bool
    requires { (p ≤ length (words_of objects.now)) × (start < 65536) × (size < 65536) }
    ensures { (n : Name) → start + size ≤ length common.now → NameAt (words_of objects.now) p n → result ≡ same n.text (take size (drop start common.now)) }
{
    start + size <= common.len() && same_common(objects, p, common, start, size)
}

// Whether the name at a place is on the list of the common part.
pub fn is_listed(objects: &[u8], p: usize, common: &[u8], heads: &[u16]) -> bool
    requires { p ≤ length (words_of objects.now) }
    ensures { (hs : List Head) (n : Name) → HeadsAt common.now heads.now hs → NameAt (words_of objects.now) p n → result ≡ is_listed hs n }
{
    for i in 0..heads.len() / HEAD_NUMBERS {
        let start = usize::from(heads[HEAD_NUMBERS * i]);
        let size = usize::from(heads[HEAD_NUMBERS * i + 1]);
        if is_part(objects, p, common, start, size) {
            return true;
        }
    }
    false
}

// Whether the k-th of the pairs from a place on has the name at p for its operand rule.
fn stands_at(objects: &[u8], pairs: usize, count: usize, k: usize, p: usize) -> bool
    requires { (pairs ≤ length (words_of objects.now)) × (p ≤ length (words_of objects.now)) }
    ensures { (ps : List Pair) (n : Name) (rest : List ℕ) → times count a_pair (drop pairs (words_of objects.now)) ≡ took ps rest → NameAt (words_of objects.now) p n → result ≡ stands_at ps k n }
{
    if k >= count {
        return false;
    }
    let Some(at) = past_pairs(objects, pairs, k) else {
        return false;
    };
    if total(objects) - at < 2 {
        return false;
    }
    let Some(operand) = past_name(objects, at + 2) else {
        return false;
    };
    same_names(objects, operand, p)
}

// Whether the name at p is one of the n names from a place on.
fn among_names(objects: &[u8], at: usize, n: usize, p: usize) -> bool
    requires { (at ≤ length (words_of objects.now)) × (p ≤ length (words_of objects.now)) }
    ensures { (ns : List Name) (m : Name) (rest : List ℕ) → times n a_name (drop at (words_of objects.now)) ≡ took ns rest → NameAt (words_of objects.now) p m → result ≡ is_one m.text (texts_of ns) }
{
    let mut q = at;
    for _ in 0..n {
        if same_names(objects, p, q) {
            return true;
        }
        let Some(next) = past_name(objects, q) else {
            return false;
        };
        q = next;
    }
    false
}

// Whether the rule at q calls the name at p.
fn calls_name(objects: &[u8], q: usize, p: usize) -> bool
    requires { (q ≤ length (words_of objects.now)) × (p ≤ length (words_of objects.now)) }
    ensures { (v : RuleView) (m : Name) (k : List ℕ) → drop q (words_of objects.now) ≡ rule_words v ++ k → NameAt (words_of objects.now) p m → result ≡ is_one m.text (texts_of v.calls) }
{
    let Some(gives) = past_name(objects, q) else {
        return false;
    };
    let Some(calls) = past_option(objects, gives) else {
        return false;
    };
    if calls == total(objects) {
        return false;
    }
    among_names(objects, calls + 1, number(objects, calls), p)
}

// Whether one of the n rules from a place on calls the name at p.
fn is_called(objects: &[u8], at: usize, n: usize, p: usize) -> bool
    requires { (at ≤ length (words_of objects.now)) × (p ≤ length (words_of objects.now)) }
    ensures { (vs : List RuleView) (m : Name) (rest : List ℕ) → times n a_rule (drop at (words_of objects.now)) ≡ took vs rest → NameAt (words_of objects.now) p m → result ≡ is_one m.text (texts_of (calls_of vs)) }
{
    let mut q = at;
    for _ in 0..n {
        if calls_name(objects, q, p) {
            return true;
        }
        let Some(next) = past_rule(objects, q) else {
            return false;
        };
        q = next;
    }
    false
}

// The cells of a rule

const END: usize = cells::END as usize;

const EXIT: usize = cells::EXIT as usize;

const CYCLE: usize = cells::CYCLE as usize;

const MATCH: usize = cells::MATCH as usize;

const ANY: usize = cells::ANY as usize;

const ERROR: usize = cells::ERROR as usize;

const BY_TOKEN: usize = cells::BY_TOKEN as usize;

const CALL: usize = cells::CALL as usize;

const BACK: usize = cells::BACK as usize;

const GIVE: usize = cells::GIVE as usize;

const BY_RULE: usize = cells::BY_RULE as usize;

const NO_OTHERWISE: usize = cells::NO_OTHERWISE as usize;

const OTHERWISE: usize = cells::OTHERWISE as usize;

const NO_TOKEN: usize = cells::NO_TOKEN as usize;

const ALTERNATIVE: usize = cells::ALTERNATIVE as usize;

const UPDATE: usize = cells::UPDATE as usize;

const UPDATE_WITH: usize = cells::UPDATE_WITH as usize;

const ASK: usize = cells::ASK as usize;

const ASK_WITH: usize = cells::ASK_WITH as usize;

const PAST_OPERATIONS: usize = machine::PAST_OPERATIONS as usize;

// Where the object's pairs stand and how many there are, and whether the rule is a choice rule.
#[derive(Clone, Copy, Debug, PartialEq, Eq)]
pub struct Ground {
    pub pairs: usize,
    pub count: usize,
    pub valued: bool,
}

// How many cycles and choices may still be entered, and whether a cycle was.
#[derive(Clone, Copy, Debug, PartialEq, Eq)]
pub struct Depth {
    pub left: usize,
    pub inside: bool,
}

// The place of the next cell and the place behind the last, the place of the next name and how many names are left.
#[derive(Clone, Copy, Debug, PartialEq, Eq)]
pub struct Spot {
    pub cell: usize,
    pub end: usize,
    pub name: usize,
    pub names: usize,
}

// What cells in order come to: the place behind them, whether they go past themselves, and whether a `>` in them belongs to the cycle around.
#[derive(Clone, Copy, Debug, PartialEq, Eq)]
pub struct Outcome {
    pub spot: Spot,
    pub past: bool,
    pub exits: bool,
}

// The first cell of the alternative that ends a choice, whether the choice is by token, and whether a label stands before.
#[derive(Clone, Copy, Debug, PartialEq, Eq)]
pub struct Last {
    pub x: usize,
    pub token: bool,
    pub labelled: bool,
}

// A rule's cells and the names of its calls, and whether it is a choice rule.
#[derive(Clone, Copy, Debug, PartialEq, Eq)]
pub struct Body {
    pub valued: bool,
    pub spot: Spot,
}

fn passed(spot: Spot, past: bool, exits: bool) -> Option<Outcome>
    ensures { result ≡ yes spot past exits }
{
    Some(Outcome { spot, past, exits })
}

// n cells further on.
fn ahead(spot: Spot, n: usize) -> Spot
    requires { spot.cell + n ≤ spot.end }
    ensures { (result ≡ along n spot) × (result.cell ≡ spot.cell + n) × (result.end ≡ spot.end) × (result.name ≡ spot.name) }
{
    Spot {
        cell: spot.cell + n,
        ..spot
    }
}

// Behind the cell of an operand.
fn operand(spot: Spot, past: bool) -> Option<Outcome>
    requires { spot.cell ≤ spot.end }
    ensures { (words : List ℕ) → OperandDone words spot past result }
{
    if spot.cell == spot.end {
        return None;
    }
    passed(ahead(spot, 1), past, false)
}

// Behind a call's mark and its name, where they are there and ok.
fn after_call(objects: &[u8], spot: Spot, ok: bool) -> Option<Outcome>
    requires { (spot.cell ≤ spot.end) × (spot.name ≤ length (words_of objects.now)) }
    ensures { NameDone (words_of objects.now) spot ok result }
{
    if spot.cell == spot.end || spot.names == 0 {
        return None;
    }
    let name = past_name(objects, spot.name)?;
    if !ok {
        return None;
    }
    let s = Spot {
        cell: spot.cell + 1,
        name,
        names: spot.names - 1,
        ..spot
    };
    passed(s, true, false)
}

// Whether the mark of a call and its name belong together.
fn call_ok(objects: &[u8], common: &[u8], heads: &[u16], ground: Ground, spot: Spot) -> bool
    requires { (spot.name ≤ length (words_of objects.now)) × (ground.pairs ≤ length (words_of objects.now)) }
    ensures { CallOk common.now heads.now (words_of objects.now) ground spot result }
{
    let m = number(objects, spot.cell);
    if m == 0 {
        return !is_listed(objects, spot.name, common, heads);
    }
    stands_at(objects, ground.pairs, ground.count, m - 1, spot.name)
}

// The same of a choice by a rule.
fn rule_ok(objects: &[u8], common: &[u8], heads: &[u16], spot: Spot) -> bool
    requires { spot.name ≤ length (words_of objects.now) }
    ensures { RuleOk common.now heads.now (words_of objects.now) spot result }
{
    number(objects, spot.cell) == 0 && is_listed(objects, spot.name, common, heads)
}

// An action of one cell, alone or with a value behind it.
fn simple(spot: Spot, x: usize) -> Option<Outcome>
    requires cell_le_end { (spot.cell ≤ spot.end) × (x < 768) }
    requires fact { (x ≡ 1 → ⊥) × (x ≡ 2 → ⊥) × (x ≡ 7 → ⊥) × (x ≡ 8 → ⊥) × (x ≡ 9 → ⊥) × (x ≡ 10 → ⊥) × (x ≡ 11 → ⊥) }
    ensures { (words : List ℕ) → SimpleDone words spot x result }
{
    if x == ANY {
        return passed(spot, true, false);
    }
    if x < MATCH {
        return None;
    }
    if x <= ERROR {
        return operand(spot, true);
    }
    if x < UPDATE {
        return None;
    }
    if x < UPDATE_WITH {
        return passed(spot, true, false);
    }
    operand(spot, true)
}

// A plain action, behind its first cell x.
fn plain(
    objects: &[u8],
    common: &[u8],
    heads: &[u16],
    ground: Ground,
    depth: Depth,
    spot: Spot,
    x: usize,
) -> Option<Outcome>
    requires fits { Fits (words_of objects.now) ground spot × (x < 768) }
    requires fact { (x ≡ 2 → ⊥) × (x ≡ 7 → ⊥) × (x ≡ 11 → ⊥) }
    ensures { SortDone common.now heads.now (words_of objects.now) ground depth spot (sort_of x) result }
{
    if x == EXIT {
        if depth.inside {
            return passed(spot, false, true);
        }
        return None;
    }
    if x == CALL {
        let ok = call_ok(objects, common, heads, ground, spot);
        return after_call(objects, spot, ok);
    }
    if x == BACK {
        if ground.valued {
            return None;
        }
        return passed(spot, false, false);
    }
    if x == GIVE {
        if ground.valued {
            return operand(spot, false);
        }
        return None;
    }
    simple(spot, x)
}

// The selector of a choice by an operation, behind its first cell x.
fn asked(spot: Spot, x: usize) -> Option<Outcome>
    requires { spot.cell ≤ spot.end }
    ensures { (words : List ℕ) → AskedDone words spot x result }
{
    if x < ASK_WITH {
        passed(spot, true, false)
    } else if x < PAST_OPERATIONS {
        operand(spot, true)
    } else {
        None
    }
}

// n labels, where `room` more may stand.
fn labels(spot: Spot, n: usize, room: usize) -> Option<Outcome>
    requires { spot.cell ≤ spot.end }
    ensures { (words : List ℕ) → LabelsDone words spot n room result }
{
    if n > room || n > spot.end - spot.cell {
        return None;
    }
    passed(ahead(spot, n), true, false)
}

// What stands for no otherwise, behind its cell x; a choice by token needs a label before it.
fn bare(spot: Spot, x: usize, token: bool, labelled: bool) -> Option<Outcome>
    requires { (x ≤ 64) × (x ≡ 13 → ⊥) }
    ensures { (words : List ℕ) → BareDone words spot x token labelled result }
{
    if x == NO_OTHERWISE {
        if token {
            return None;
        }
        return passed(spot, false, false);
    }
    if x == NO_TOKEN {
        if token & labelled {
            return passed(spot, false, false);
        }
        return None;
    }
    None
}

// Whether all cells and all names are used up, and no choice rule goes past its end.
fn used_up(valued: bool, o: Outcome) -> bool
    ensures { (words : List ℕ) (w : Option Went) → Tells words w (Some o) → result ≡ used_up valued w }
{
    if o.spot.cell != o.spot.end || o.spot.names != 0 {
        return false;
    }
    !(valued & o.past)
}

// Actions up to the cell that ends them.
#[cycle(actions)]
fn acts(
    objects: &[u8],
    common: &[u8],
    heads: &[u16],
    ground: Ground,
    depth: Depth,
    spot: Spot,
) -> Option<Outcome>
    requires { Fits (words_of objects.now) ground spot }
    ensures { ActsDone common.now heads.now (words_of objects.now) ground depth spot result }
{
    let mut here = spot;
    let mut past = true;
    let mut exits = false;
    // no range: what is read says where the next stands
    while here.cell < here.end {
        let x = number(objects, here.cell);
        let next = ahead(here, 1);
        if x == END {
            return passed(next, past, exits);
        }
        let a = act(objects, common, heads, ground, depth, next, x)?;
        past &= a.past;
        exits |= a.exits;
        here = a.spot;
    }
    None
}

// An action, behind its first cell x.
#[cycle(actions)]
fn act(
    objects: &[u8],
    common: &[u8],
    heads: &[u16],
    ground: Ground,
    depth: Depth,
    spot: Spot,
    x: usize,
) -> Option<Outcome>
    requires { Fits (words_of objects.now) ground spot }
    ensures { SortDone common.now heads.now (words_of objects.now) ground depth spot (sort_of x) result }
{
    if x == CYCLE {
        return cycle(objects, common, heads, ground, depth, spot);
    }
    if x == BY_TOKEN {
        return choice(objects, common, heads, ground, depth, spot, true);
    }
    if x == BY_RULE {
        let ok = rule_ok(objects, common, heads, spot);
        let s = after_call(objects, spot, ok)?;
        return choice(objects, common, heads, ground, depth, s.spot, false);
    }
    if x >= ASK {
        let s = asked(spot, x)?;
        return choice(objects, common, heads, ground, depth, s.spot, false);
    }
    plain(objects, common, heads, ground, depth, spot, x)
}

// A cycle, behind its first cell: it goes past if some `>` belongs to it.
#[cycle(actions)]
fn cycle(
    objects: &[u8],
    common: &[u8],
    heads: &[u16],
    ground: Ground,
    depth: Depth,
    spot: Spot,
) -> Option<Outcome>
    requires { Fits (words_of objects.now) ground spot }
    ensures { SortDone common.now heads.now (words_of objects.now) ground depth spot turns result }
{
    if depth.left == 0 {
        return None;
    }
    let inner = Depth {
        left: depth.left - 1,
        inside: true,
    };
    let b = acts(objects, common, heads, ground, inner, spot)?;
    passed(b.spot, b.exits, false)
}

// A choice, behind its selector.
#[cycle(actions)]
fn choice(
    objects: &[u8],
    common: &[u8],
    heads: &[u16],
    ground: Ground,
    depth: Depth,
    spot: Spot,
    token: bool,
) -> Option<Outcome>
    requires { Fits (words_of objects.now) ground spot }
    ensures { ChoiceDone common.now heads.now (words_of objects.now) ground depth spot token result }
{
    if depth.left == 0 {
        return None;
    }
    let inner = Depth {
        left: depth.left - 1,
        inside: depth.inside,
    };
    arms(objects, common, heads, ground, inner, spot, token)
}

// The alternative that ends a choice, behind its first cell.
#[cycle(actions)]
fn last_arm(
    objects: &[u8],
    common: &[u8],
    heads: &[u16],
    ground: Ground,
    depth: Depth,
    spot: Spot,
    last: Last,
) -> Option<Outcome>
    requires { Fits (words_of objects.now) ground spot × (last.x ≤ 64) }
    ensures { LastDone common.now heads.now (words_of objects.now) ground depth spot last result }
{
    if last.x == OTHERWISE {
        return acts(objects, common, heads, ground, depth, spot);
    }
    bare(spot, last.x, last.token, last.labelled)
}

// Alternatives up to the one that ends them.
#[cycle(actions)]
fn arms(
    objects: &[u8],
    common: &[u8],
    heads: &[u16],
    ground: Ground,
    depth: Depth,
    spot: Spot,
    token: bool,
) -> Option<Outcome>
    requires { Fits (words_of objects.now) ground spot }
    ensures { ArmsDone common.now heads.now (words_of objects.now) ground depth spot token result }
{
    let mut here = spot;
    let mut room = base::LABELS;
    let mut labelled = false;
    let mut past = false;
    let mut exits = false;
    // no range: what is read says where the next stands
    while here.cell < here.end {
        let x = number(objects, here.cell);
        let next = ahead(here, 1);
        if x <= ALTERNATIVE {
            let last = Last { x, token, labelled };
            let o = last_arm(objects, common, heads, ground, depth, next, last)?;
            return passed(o.spot, past | o.past, exits | o.exits);
        }
        let l = labels(next, x - ALTERNATIVE, room)?;
        let a = acts(objects, common, heads, ground, depth, l.spot)?;
        past |= a.past;
        exits |= a.exits;
        room -= x - ALTERNATIVE;
        labelled = true;
        here = a.spot;
    }
    None
}

// The cells of the rule at q, and the names of its calls.
fn body_at(objects: &[u8], q: usize) -> Option<Body>
    requires { q ≤ length (words_of objects.now) }
    ensures { BodyDone (words_of objects.now) q result }
{
    let gives = past_name(objects, q)?;
    let calls = past_option(objects, gives)?;
    let end = total(objects);
    if calls == end {
        return None;
    }
    let names = number(objects, calls);
    let cells = past_names(objects, calls + 1, names)?;
    if cells == end {
        return None;
    }
    let size = number(objects, cells);
    if size >= end - cells {
        return None;
    }
    let spot = Spot {
        cell: cells + 1,
        end: cells + 1 + size,
        name: calls + 1,
        names,
    };
    Some(Body {
        valued: number(objects, gives) == 1,
        spot,
    })
}

// Whether the rule at q is in order, where the object's pairs stand at `pairs`, as many as `count`.
fn rule_in_order(
    objects: &[u8],
    q: usize,
    common: &[u8],
    heads: &[u16],
    pairs: usize,
    count: usize,
) -> bool
    requires { (q ≤ length (words_of objects.now)) × (pairs ≤ length (words_of objects.now)) }
    ensures { (hs : List Head) (ps : List Pair) (v : RuleView) (k rest : List ℕ) → HeadsAt common.now heads.now hs
        → times count a_pair (drop pairs (words_of objects.now)) ≡ took ps rest → drop q (words_of objects.now) ≡ rule_words v ++ k → result ≡ rule_in_order hs ps v }
{
    let Some(body) = body_at(objects, q) else {
        return false;
    };
    let ground = Ground {
        pairs,
        count,
        valued: body.valued,
    };
    let depth = Depth {
        left: base::NESTED,
        inside: false,
    };
    let Some(o) = acts(objects, common, heads, ground, depth, body.spot) else {
        return false;
    };
    used_up(body.valued, o)
}

// Whole objects

// Things one behind the other: where the first stands, and how many there are.
#[derive(Clone, Copy, Debug, PartialEq, Eq)]
struct Span {
    at: usize,
    count: usize,
}

// Where an object's names are looked up: its pairs, its rules, and how many declarations the rows have.
#[derive(Clone, Copy, Debug, PartialEq, Eq)]
struct Scope {
    pairs: Span,
    rules: Span,
    declared: usize,
}

// Whether the name at a place has these bytes of a text, which are cut at the text's end.
fn is_text(objects: &[u8], p: usize, text: &[u8], start: usize, len: usize) -> bool
    requires { p ≤ length (words_of objects.now) }
    ensures { (m : Name) → NameAt (words_of objects.now) p m → result ≡ same m.text (part text.now start len) }
{
    if text.len() < start {
        return same_common(objects, p, text, 0, 0);
    }
    let size = symbols::part_len(text, start, len);
    same_common(objects, p, text, start, size)
}

// Whether declaration i of the rows is a section of operators with the name at a place.
fn is_section(objects: &[u8], p: usize, text: &[u8], rows: &[u16], i: usize) -> bool
    requires { (p ≤ length (words_of objects.now)) × (i ≤ 512) }
    ensures { (m : Name) → NameAt (words_of objects.now) p m → result ≡ named 600 m.text (decl_at text.now rows.now i) }
{
    base::number(rows, symbols::ROW * i) == symbols::OPERATORS
        && is_text(
            objects,
            p,
            text,
            base::number(rows, symbols::ROW * i + symbols::NAME_START),
            base::number(rows, symbols::ROW * i + symbols::NAME_LEN),
        )
}

// The first of the n declarations that is a section of operators with the name at a place, `symbols::NONE` where there is none.
pub fn find_section(objects: &[u8], p: usize, text: &[u8], rows: &[u16], n: usize) -> usize
    requires { (p ≤ length (words_of objects.now)) × (n ≤ 512) }
    ensures same { (m : Name) → NameAt (words_of objects.now) p m → result ≡ number_of (index_of 600 m.text 0 (held text.now rows.now n)) }
    ensures tells { (m : Name) → NameAt (words_of objects.now) p m → search.Tells result (index_of 600 m.text 0 (held text.now rows.now n)) }
    ensures below { result < 65536 → result < n }
{
    for i in 0..n {
        if is_section(objects, p, text, rows, i) {
            return i;
        }
    }
    symbols::NONE
}

// Whether the pair at a place has a section that is there and an operand rule that is not on the list and is called.
fn pair_in_order(
    objects: &[u8],
    q: usize,
    common: &[u8],
    heads: &[u16],
    text: &[u8],
    rows: &[u16],
    scope: Scope,
) -> bool
    requires { (q ≤ length (words_of objects.now)) × (scope.rules.at ≤ length (words_of objects.now)) × (scope.declared ≤ 512) }
    ensures { (hs : List Head) (n : Names) (vs : List RuleView) (p : Pair) (k rest : List ℕ) → HeadsAt common.now heads.now hs → SectionsAt text.now rows.now scope.declared n → times scope.rules.count a_rule (drop scope.rules.at (words_of objects.now)) ≡ took vs rest → drop q (words_of objects.now) ≡ pair_words p ++ k → result ≡ pair_in_order hs n vs p }
{
    if total(objects) - q < 2 {
        return false;
    }
    if find_section(objects, q + 2, text, rows, scope.declared) == symbols::NONE {
        return false;
    }
    let Some(operand) = past_name(objects, q + 2) else {
        return false;
    };
    if is_listed(objects, operand, common, heads) {
        return false;
    }
    is_called(objects, scope.rules.at, scope.rules.count, operand)
}

// Whether all pairs of an object are in order.
fn pairs_in_order(
    objects: &[u8],
    common: &[u8],
    heads: &[u16],
    text: &[u8],
    rows: &[u16],
    scope: Scope,
) -> bool
    requires { (scope.pairs.at ≤ length (words_of objects.now)) × (scope.rules.at ≤ length (words_of objects.now)) × (scope.declared ≤ 512) }
    ensures { (hs : List Head) (n : Names) (v : View) → HeadsAt common.now heads.now hs → SectionsAt text.now rows.now scope.declared n → PartsAt (words_of objects.now) scope.pairs.at scope.pairs.count scope.rules.at scope.rules.count v → result ≡ every (pair_in_order hs n v.rules) v.pairs }
{
    let mut q = scope.pairs.at;
    for _ in 0..scope.pairs.count {
        if !pair_in_order(objects, q, common, heads, text, rows, scope) {
            return false;
        }
        let Some(next) = past_pair(objects, q) else {
            return false;
        };
        q = next;
    }
    true
}

// Whether all rules of an object are in order.
fn rules_in_order(objects: &[u8], common: &[u8], heads: &[u16], scope: Scope) -> bool
    requires { (scope.pairs.at ≤ length (words_of objects.now)) × (scope.rules.at ≤ length (words_of objects.now)) }
    ensures { (hs : List Head) (v : View) → HeadsAt common.now heads.now hs → PartsAt (words_of objects.now) scope.pairs.at scope.pairs.count scope.rules.at scope.rules.count v → result ≡ every (rule_in_order hs v.pairs) v.rules }
{
    let mut q = scope.rules.at;
    for _ in 0..scope.rules.count {
        if !rule_in_order(objects, q, common, heads, scope.pairs.at, scope.pairs.count) {
            return false;
        }
        let Some(next) = past_rule(objects, q) else {
            return false;
        };
        q = next;
    }
    true
}

// Whether the object at a place has a rule, and all its pairs and rules are in order. Its form is read before.
fn view_in_order(
    objects: &[u8],
    at: usize,
    common: &[u8],
    heads: &[u16],
    text: &[u8],
    rows: &[u16],
    n: usize,
) -> bool
    requires { (at ≤ length (words_of objects.now)) × (n ≤ 512) }
    ensures { (hs : List Head) (m : Names) (v : View) (k : List ℕ) → HeadsAt common.now heads.now hs → SectionsAt text.now rows.now n m → drop at (words_of objects.now) ≡ view_words common.now v ++ k → result ≡ view_in_order hs m v }
{
    let head = common.len() / 2 + common.len() % 2 + HEADER;
    if total(objects) - at < head {
        return false;
    }
    let pairs = Span {
        at: at + head,
        count: number(objects, at + PAIR_COUNT),
    };
    let Some(behind) = past_pairs(objects, pairs.at, pairs.count) else {
        return false;
    };
    let rules = Span {
        at: behind,
        count: number(objects, at + RULE_COUNT),
    };
    if rules.count == 0 {
        return false;
    }
    let scope = Scope {
        pairs,
        rules,
        declared: n,
    };
    pairs_in_order(objects, common, heads, text, rows, scope)
        && rules_in_order(objects, common, heads, scope)
}

// Whether the bytes are objects of the common part, one behind the other, and how many stand in order before the first that does not.
#[derive(Clone, Copy, Debug, PartialEq, Eq)]
pub struct Checked {
    pub ok: bool,
    pub good: usize,
}

pub fn check(
    objects: &[u8],
    common: &[u8],
    heads: &[u16],
    text: &[u8],
    rows: &[u16],
    n: usize,
) -> Checked
    requires { n ≤ 512 }
    ensures whole { (hs : List Head) (m : Names) → HeadsAt common.now heads.now hs → SectionsAt text.now rows.now n m → result.ok ≡ (are_objects hs m common.now (words_of objects.now) && evenly objects.now) }
    ensures counted { (hs : List Head) (m : Names) → HeadsAt common.now heads.now hs → SectionsAt text.now rows.now n m → result.good ≡ good_views hs m common.now (length (words_of objects.now)) (words_of objects.now) }
    ensures few { 7 * result.good ≤ length (words_of objects.now) }
{
    let end = total(objects);
    let mut at = 0;
    let mut good = 0;
    // no range: what is read says where the next stands
    while at < end {
        let Some(next) = past_view(objects, at, common) else {
            return Checked { ok: false, good };
        };
        if !view_in_order(objects, at, common, heads, text, rows, n) {
            return Checked { ok: false, good };
        }
        at = next;
        good += 1;
    }
    Checked {
        ok: objects.len() % 2 == 0,
        good,
    }
}
