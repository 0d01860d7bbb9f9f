// The emitter: from a program's cells to the words of its table, in one pass.
// Nothing is asked of the cells: on any cells each function ends and keeps to its bounds.
#![tactic(auto)]

ghost use Rattle.std.specs.Prelude.{◌≡◌, [], ◌∷◌, ℕ, ◌+◌, ◌*◌, ◌-◌, ◌<◌, ◌≤◌, ◌↔◌, IsTrue, length, get_or, replicate, set};
ghost use Rattle.emitter.specs.Words.{words, set_word, puts, cut};
ghost use Rattle.emitter.specs.Heads.{words_in, one, two, three, plain_of, plain_at, chooses, ins_of, sel_of, sel_at, labels_in, labels_at, start_of, called_by, called_at, link_at, operand_number, anchor, behind, Few};
ghost use Rattle.emitter.specs.Work.{Room, Moved, Passed, ItemDone, PatchDone, ListDone, ActDone, CycleDone, LabelsDone, TableDone, AltsDone, OtherDone, AbsentDone};
ghost use Rattle.emitter.specs.Emitted.{Emits, RuleDone, PlaceDone, RulesDone, zeroed_bytes, fault_in, size_in};

use base::cell;
use cells::sort_at;

// Writing words: past the last whole word nothing is written.

fn put_word(out: &mut [u8], i: usize, x: u16)
    ensures { out.new ≡ set_word out.old i x }
{
    if i < out.len() / 2 {
        let [high, low] = x.to_be_bytes();
        out[2 * i] = high;
        out[2 * i + 1] = low;
    }
}

// The low 16 bits.
fn low(n: usize) -> u16
    ensures { result ≡ cut n }
{
    (n % 65536) as u16
}

// Words one after the other.
fn put_words(out: &mut [u8], at: usize, words: &[u16])
    requires { at + length words.now < 4000000000 }
    ensures { out.new ≡ puts out.old at words.now }
{
    for (i, &word) in words.iter().enumerate() {
        put_word(out, at + i, word);
    }
}

// From a place up to another, 0 if that lies before.
fn span(to: usize, from: usize) -> u16
    ensures { result ≡ cut (to - from) }
{
    low(to.saturating_sub(from))
}

// An instruction or a label, and a distance.
fn put_span(out: &mut [u8], at: usize, a: u16, to: usize, from: usize)
    requires { at < 2000000000 }
    ensures { out.new ≡ puts out.old at (a ∷ cut (to - from) ∷ []) }
{
    put_words(out, at, &[a, span(to, from)]);
}

// A place in the cells, a place in the table, and the newest open exit of the cycle around it, 0: none, as the words of the table keep it while they wait.
#[derive(Clone, Copy, Debug, PartialEq, Eq)]
pub struct Spot {
    pub p: usize,
    pub at: usize,
    pub exit: usize,
}

// A rule's slot: its newest open call, 0: none, and once the rule is placed its location and PLACED.
const PLACED: usize = 65536;

fn slot(slots: &[usize], r: usize) -> usize
    ensures { result ≡ get_or slots.now r 0 }
{
    slots.get(r).copied().unwrap_or(0)
}

fn put_slot(slots: &mut [usize], r: usize, n: usize)
    ensures { slots.new ≡ set slots.old r n }
{
    // an index: of `get_mut` it is not known that the row stays where there is no slot
    if r < slots.len() {
        slots[r] = n;
    }
}

// The word of a call of rule r: its location, or the next older open call.
fn start_at(slots: &[usize], r: usize) -> u16
    ensures { result ≡ start_of slots.now r }
{
    low(slot(slots, r))
}

// After an item whose first cell is k, a call if that is `call`, of rule r and with its word at `place`: that is the rule's newest open call, if it is
// not placed.
fn call_at(slots: &mut [usize], k: u16, call: u16, r: usize, place: usize)
    ensures { slots.new ≡ called_by k call slots.old r place }
{
    if k == call && slot(slots, r) < PLACED {
        put_slot(slots, r, place);
    }
}

// The next older word of a chain, 0: there is none.
fn older_at(out: &[u8], i: usize) -> usize
    ensures { (result ≡ link_at out.now i) × (result ≤ i) × (0 < i → result < i) }
{
    let w = usize::from(machine::word(out, i));
    if w < i { w } else { 0 }
}

// What a jump's word is to hold: the location itself, or the distance from the word.
#[derive(Clone, Copy, Debug, PartialEq, Eq)]
pub enum Operand {
    Location,
    Distance,
}

fn anchor(operand: Operand, j: usize) -> usize
    ensures { result ≡ anchor (operand_number operand) j }
{
    match operand {
        Operand::Location => 0,
        Operand::Distance => j,
    }
}

// The target of the chain from `newest` on is known: each of its words gets its distance or location.
fn patch(out: &mut [u8], newest: usize, to: usize, operand: Operand)
    ensures { PatchDone out.old out.new newest to (operand_number operand) }
{
    let mut j = newest;
    // no range: a word or a cell says where the next stands
    while 0 < j {
        let older = older_at(out, j);
        put_word(out, j, span(to, anchor(operand, j)));
        j = older;
    }
}

// A plain action or a selector: how many cells it takes, and its words, at most three.
#[derive(Clone, Copy, Debug, PartialEq, Eq)]
pub struct Item {
    pub cells: usize,
    pub count: usize,
    pub a: u16,
    pub b: u16,
    pub d: u16,
}

// Items of one word, of two and of three.
fn one(a: u16) -> Item
    ensures { result ≡ one a }
{
    Item {
        cells: 1,
        count: 1,
        a,
        b: 0,
        d: 0,
    }
}

fn two(a: u16, b: u16) -> Item
    ensures { result ≡ two a b }
{
    Item {
        cells: 2,
        count: 2,
        a,
        b,
        d: 0,
    }
}

fn three(a: u16, b: u16, d: u16) -> Item
    ensures { result ≡ three a b d }
{
    Item {
        cells: 2,
        count: 3,
        a,
        b,
        d,
    }
}

fn plain_of(k: u16, v: u16, to: u16) -> Item
    ensures { result ≡ plain_of k v to }
{
    match k {
        cells::ANY | cells::BACK => one(k),
        cells::CALL => two(k, to),
        cells::GIVE => three(k, v, machine::RETURN),
        ..cells::UPDATE => two(k, v),
        cells::UPDATE..cells::UPDATE_WITH => one(k),
        _ => three(machine::SET_PARAMETER, v, k),
    }
}

fn put_item(out: &mut [u8], at: usize, item: Item)
    requires { (at < 2000000000) × (item.count ≤ 3) }
    ensures { out.new ≡ puts out.old at (words_in item) }
{
    let words = [item.a, item.b, item.d];
    put_words(out, at, &words[..item.count]);
}

// An item's words, and the place behind its cells. A call is of the rule that its second cell names.
fn emit_item(
    cells: &[u16],
    slots: &mut [usize],
    out: &mut [u8],
    spot: Spot,
    item: Item,
    call: u16,
) -> Spot
    requires { Room cells.now spot.p spot.at × (spot.p < length cells.now) × Few item }
    ensures item_done { ItemDone cells.now item spot.p spot.at out.old out.new result.p result.at }
    ensures slots_after { (slots.new ≡ called_at cells.now spot.p call slots.old (spot.at + 1)) × (result.exit ≡ spot.exit) }
{
    put_item(out, spot.at, item);
    let r = usize::from(cell(cells, spot.p + 1));
    call_at(slots, cell(cells, spot.p), call, r, spot.at + 1);
    Spot {
        p: (spot.p + item.cells).min(cells.len()),
        at: spot.at + item.count,
        ..spot
    }
}

fn emit_plain(cells: &[u16], slots: &mut [usize], out: &mut [u8], spot: Spot) -> Spot
    requires { Room cells.now spot.p spot.at × (spot.p < length cells.now) }
    ensures item_done { ItemDone cells.now (plain_at cells.now slots.old spot.p) spot.p spot.at out.old out.new result.p result.at }
    ensures slots_after { (slots.new ≡ called_at cells.now spot.p 8 slots.old (spot.at + 1)) × (result.exit ≡ spot.exit) }
{
    let v = cell(cells, spot.p + 1);
    let item = plain_of(cell(cells, spot.p), v, start_at(slots, usize::from(v)));
    emit_item(cells, slots, out, spot, item, cells::CALL)
}

fn labels_in(k: u16) -> usize
    ensures { (result ≡ labels_in k) × (result < 192) }
{
    match k {
        cells::ALTERNATIVE..cells::UPDATE => usize::from(k - cells::ALTERNATIVE),
        _ => 0,
    }
}

// The labels of the alternative at p, 0: there is none.
fn labels_at(cells: &[u16], p: usize) -> usize
    requires { p < 2000000000 }
    ensures { (result ≡ labels_at cells.now p) × (result < 192) × (0 < result → p + 1 + result ≤ length cells.now) }
{
    let j = labels_in(cell(cells, p));
    if p + j < cells.len() { j } else { 0 }
}

// The selector's words.
fn sel_of(k: u16, v: u16, to: u16) -> Item
    ensures { result ≡ sel_of k v to }
{
    match k {
        cells::BY_TOKEN => Item {
            cells: 1,
            count: 0,
            a: 0,
            b: 0,
            d: 0,
        },
        cells::BY_RULE => two(machine::CALL, to),
        ..cells::ASK_WITH => one(k),
        _ => three(machine::SET_PARAMETER, v, k),
    }
}

fn emit_sel(cells: &[u16], slots: &mut [usize], out: &mut [u8], spot: Spot) -> Spot
    requires { Room cells.now spot.p spot.at × (spot.p < length cells.now) }
    ensures item_done { ItemDone cells.now (sel_at cells.now slots.old spot.p) spot.p spot.at out.old out.new result.p result.at }
    ensures slots_after { (slots.new ≡ called_at cells.now spot.p 11 slots.old (spot.at + 1)) × (result.exit ≡ spot.exit) }
{
    let v = cell(cells, spot.p + 1);
    let item = sel_of(cell(cells, spot.p), v, start_at(slots, usize::from(v)));
    emit_item(cells, slots, out, spot, item, cells::BY_RULE)
}

// The choice table's entries of one alternative.
fn emit_labels(cells: &[u16], p: usize, j: usize, out: &mut [u8], at: usize, from: usize)
    requires { (p < 2000000) × (j < 192) × (at < 1100000000) }
    ensures { LabelsDone cells.now p j out.old out.new at from }
{
    for i in 0..j {
        let l = at + 2 * i;
        put_span(out, l, cell(cells, p + i), l + 1, from);
    }
}

// Where the alternative starts that follows the one whose jump is `older`.
fn behind(older: usize, from: usize) -> usize
    requires { older < 2000000000 }
    ensures { result ≡ behind older from }
{
    if older == 0 { from } else { older + 1 }
}

// The choice table's entries, the last alternative's first: the chain of ends leads from it to the first one. The word before an end has the cell
// of its alternative, and gets its instruction.
fn emit_table(cells: &[u16], out: &mut [u8], newest: usize, from: usize, end: usize)
    requires { (newest < 2000000000) × (end < 1100000000) }
    ensures { TableDone cells.now out.old out.new newest from end }
{
    let mut j = newest;
    let mut l = end;
    // no range: a word or a cell says where the next stands
    while 0 < j {
        let head = usize::from(machine::word(out, j - 1));
        let n = labels_at(cells, head);
        let older = older_at(out, j);
        l = l.saturating_sub(2 * n);
        emit_labels(cells, head + 1, n, out, l, behind(older, from));
        put_word(out, j - 1, machine::JUMP_FORWARD);
        j = older;
    }
}

// A choice begins with such a cell.
fn chooses(k: u16) -> bool
    ensures { IsTrue result ↔ (chooses k ≡ 1) }
{
    k == cells::BY_TOKEN || k == cells::BY_RULE || cells::ASK <= k
}

fn ins_of(k: u16) -> u16
    ensures { result ≡ ins_of k }
{
    if k == cells::BY_TOKEN {
        machine::INPUT_CHOICE
    } else {
        machine::CHOICE
    }
}

// Where alternatives begin: their first label, and their place in the table.
#[derive(Clone, Copy, Debug, PartialEq, Eq)]
pub struct Opening {
    pub label: u16,
    pub from: usize,
}

// What stands for no otherwise: the first label's token and back to its alternative, or the end of the choice.
fn emit_absent(cells: &[u16], out: &mut [u8], spot: Spot, first: Opening) -> Spot
    requires { Room cells.now spot.p 0 × (spot.at < 1100000000) }
    ensures absent_done { (get_or cells.now spot.p 0 ≡ 13 → ⊥) → AbsentDone cells.now spot.p out.old out.new spot.at first.label first.from result.p result.at }
    ensures moved { Moved cells.now spot.p (spot.at + 4) result.p result.at × (result.exit ≡ spot.exit) }
{
    let next = (spot.p + 1).min(cells.len());
    let at = spot.at;
    if cell(cells, spot.p) == cells::NO_TOKEN {
        put_words(out, at, &[machine::INPUT, first.label]);
        put_span(out, at + 2, machine::JUMP_BACK, at + 3, first.from);
        Spot {
            p: next,
            at: at + 4,
            ..spot
        }
    } else {
        put_word(out, at, machine::END_CHOICE);
        Spot {
            p: next,
            at: at + 1,
            ..spot
        }
    }
}

#[cycle(emit_act_emit_alts_emit_choice_emit_cycle_emit_list_emit_other)]
fn emit_list(cells: &[u16], slots: &mut [usize], out: &mut [u8], spot: Spot) -> Spot
    requires { Room cells.now spot.p spot.at × (spot.exit < 2000000000) }
    ensures list_done { ListDone cells.now spot.p out.old out.new spot.at spot.exit slots.old slots.new result.p result.at result.exit }
    ensures moved { Moved cells.now spot.p spot.at result.p result.at × (result.exit < 2000000000) }
{
    let mut here = spot;
    // no range: a word or a cell says where the next stands
    while cell(cells, here.p) != cells::END {
        here = emit_act(cells, slots, out, here);
    }
    Spot {
        p: (here.p + 1).min(cells.len()),
        ..here
    }
}

#[cycle(emit_act_emit_alts_emit_choice_emit_cycle_emit_list_emit_other)]
fn emit_act(cells: &[u16], slots: &mut [usize], out: &mut [u8], spot: Spot) -> Spot
    requires { Room cells.now spot.p spot.at × (spot.p < length cells.now) × (spot.exit < 2000000000) }
    ensures act_done { ActDone cells.now spot.p out.old out.new spot.at spot.exit slots.old slots.new result.p result.at result.exit }
    ensures passed { Passed cells.now spot.p spot.at result.p result.at × (result.exit < 2000000000) }
{
    let k = cell(cells, spot.p);
    if k == cells::EXIT {
        put_words(out, spot.at, &[machine::JUMP_FORWARD, low(spot.exit)]);
        return Spot {
            p: spot.p + 1,
            at: spot.at + 2,
            exit: spot.at + 1,
        };
    }
    if k == cells::CYCLE {
        return emit_cycle(cells, slots, out, spot);
    }
    if chooses(k) {
        return emit_choice(cells, slots, out, spot);
    }
    emit_plain(cells, slots, out, spot)
}

// A cycle's own exits are a chain of its own.
#[cycle(emit_act_emit_alts_emit_choice_emit_cycle_emit_list_emit_other)]
fn emit_cycle(cells: &[u16], slots: &mut [usize], out: &mut [u8], spot: Spot) -> Spot
    requires { Room cells.now spot.p spot.at × (spot.p < length cells.now) × (spot.exit < 2000000000) }
    ensures cycle_done { CycleDone cells.now spot.p out.old out.new spot.at spot.exit slots.old slots.new result.p result.at result.exit }
    ensures passed { Passed cells.now spot.p spot.at result.p result.at × (result.exit < 2000000000) }
{
    let inner = Spot {
        p: spot.p + 1,
        exit: 0,
        ..spot
    };
    let s = emit_list(cells, slots, out, inner);
    let end = s.at + 2;
    put_span(out, s.at, machine::JUMP_BACK, s.at + 1, spot.at);
    patch(out, s.exit, end, Operand::Distance);
    Spot {
        p: s.p,
        at: end,
        ..spot
    }
}

// Alternatives: where they end, the newest open exit and end, their labels.
#[derive(Clone, Copy, Debug, PartialEq, Eq)]
pub struct Row {
    pub p: usize,
    pub at: usize,
    pub exit: usize,
    pub end: usize,
    pub labels: usize,
}

// Behind each alternative stand its first cell, for the choice table, and the end before it.
#[cycle(emit_act_emit_alts_emit_choice_emit_cycle_emit_list_emit_other)]
fn emit_alts(cells: &[u16], slots: &mut [usize], out: &mut [u8], spot: Spot) -> Row
    requires { Room cells.now spot.p spot.at × (spot.exit < 2000000000) }
    ensures alts_done { AltsDone cells.now spot.p out.old out.new spot.at spot.exit slots.old slots.new result }
    ensures moved { Moved cells.now spot.p spot.at result.p (result.at + 2 * result.labels) × (result.exit < 2000000000) × (result.end < 2000000000) }
{
    let mut here = spot;
    let mut end = 0;
    let mut n = 0;
    let mut j = labels_at(cells, here.p);
    // no range: a word or a cell says where the next stands
    while 0 < j {
        let first = Spot {
            p: here.p + 1 + j,
            ..here
        };
        let s = emit_list(cells, slots, out, first);
        put_words(out, s.at, &[low(here.p), low(end)]);
        end = s.at + 1;
        n += j;
        here = Spot { at: s.at + 2, ..s };
        j = labels_at(cells, here.p);
    }
    Row {
        p: here.p,
        at: here.at,
        exit: here.exit,
        end,
        labels: n,
    }
}

#[cycle(emit_act_emit_alts_emit_choice_emit_cycle_emit_list_emit_other)]
fn emit_other(
    cells: &[u16],
    slots: &mut [usize],
    out: &mut [u8],
    spot: Spot,
    first: Opening,
) -> Spot
    requires { Room cells.now spot.p spot.at × (spot.exit < 2000000000) }
    ensures other_done { OtherDone cells.now spot.p out.old out.new spot.at spot.exit first.label first.from slots.old slots.new result.p result.at result.exit }
    ensures moved { Moved cells.now spot.p (spot.at + 4) result.p result.at × (result.exit < 2000000000) }
{
    if cell(cells, spot.p) == cells::OTHERWISE {
        let inner = Spot {
            p: spot.p + 1,
            ..spot
        };
        emit_list(cells, slots, out, inner)
    } else {
        emit_absent(cells, out, spot, first)
    }
}

#[cycle(emit_act_emit_alts_emit_choice_emit_cycle_emit_list_emit_other)]
fn emit_choice(cells: &[u16], slots: &mut [usize], out: &mut [u8], spot: Spot) -> Spot
    requires { Room cells.now spot.p spot.at × (spot.p < length cells.now) × (chooses (get_or cells.now spot.p 0) ≡ 1) × (spot.exit < 2000000000) }
    ensures act_done { ActDone cells.now spot.p out.old out.new spot.at spot.exit slots.old slots.new result.p result.at result.exit }
    ensures passed { Passed cells.now spot.p spot.at result.p result.at × (result.exit < 2000000000) }
{
    let ins = ins_of(cell(cells, spot.p));
    let a = emit_sel(cells, slots, out, spot);
    let from = a.at + 2;
    put_words(out, a.at, &[ins, 0]);
    let first = Spot {
        p: a.p,
        at: from,
        ..spot
    };
    let z = emit_alts(cells, slots, out, first);
    let table = z.at;
    let rest = table + 1 + 2 * z.labels;
    patch(out, a.at + 1, table, Operand::Distance);
    put_word(out, table, low(z.labels));
    emit_table(cells, out, z.end, from, rest);
    let opening = Opening {
        label: cell(cells, a.p + 1),
        from,
    };
    let other = Spot {
        p: z.p,
        at: rest,
        exit: z.exit,
    };
    let s = emit_other(cells, slots, out, other, opening);
    patch(out, z.end, s.at, Operand::Distance);
    s
}

// Zero words from at on; an odd last byte is not touched.
fn zero_from(out: &mut [u8], at: usize)
    ensures { out.new ≡ puts out.old at (replicate (words out.old - at) 0) }
{
    for i in at..out.len() / 2 {
        put_word(out, i, 0);
    }
}

// Every word zero, as on a refusal.
pub fn zero(table: &mut [u8])
    ensures { table.new ≡ zeroed_bytes table.old }
{
    zero_from(table, 0);
}

// The rules.

// One rule: its actions and, but in a choice rule, the return.
fn emit_rule(cells: &[u16], slots: &mut [usize], out: &mut [u8], spot: Spot, sort: u8) -> Spot
    requires { Room cells.now spot.p spot.at }
    ensures rule_done { RuleDone cells.now spot.p out.old out.new spot.at sort slots.old slots.new result.p result.at }
    ensures moved { Moved cells.now spot.p (spot.at + 1) result.p result.at }
{
    let first = Spot { exit: 0, ..spot };
    let s = emit_list(cells, slots, out, first);
    patch(out, s.exit, s.at, Operand::Distance);
    if sort == cells::PROCEDURE_RULE {
        put_word(out, s.at, machine::RETURN);
        Spot { at: s.at + 1, ..s }
    } else {
        s
    }
}

// Rule r begins: the calls that wait for it get its location, and so does its slot.
fn place_rule(slots: &mut [usize], r: usize, out: &mut [u8], at: usize)
    requires { at < 2000000000 }
    ensures { PlaceDone slots.old slots.new r out.old out.new at }
{
    patch(out, slot(slots, r), at + 1, Operand::Location);
    put_slot(slots, r, PLACED + at + 1);
}

// The rules one after the other; the words of all of them.
fn emit_rules(
    cells: &[u16],
    sorts: &[u8],
    rules: usize,
    slots: &mut [usize],
    out: &mut [u8],
) -> usize
    requires { (length cells.now ≤ 65536) × (rules ≤ 128) }
    ensures { RulesDone cells.now sorts.now rules slots.old out.old out.new result }
{
    let mut here = Spot {
        p: 0,
        at: 0,
        exit: 0,
    };
    for r in 0..rules {
        place_rule(slots, r, out, here.at);
        here = emit_rule(cells, slots, out, here, sort_at(sorts, r));
    }
    here.at
}

// The table does not fit: it takes so many words.
#[derive(Clone, Copy, Debug, PartialEq, Eq)]
pub struct TooShort {
    pub size: usize,
}

// What does not fit, or is no program's cells: every word zero.
fn too_short(table: &mut [u8], size: usize) -> TooShort
    ensures size { result.size ≡ size }
    ensures table_after { table.new ≡ puts table.old 0 (replicate (words table.old - 0) 0) }
{
    zero_from(table, 0);
    TooShort { size }
}

// The table of the program whose cells these are into the lent words, zero words behind it; all zero if it does not fit.
#[inline(never)]
pub fn emit(cells: &[u16], sorts: &[u8], rules: usize, table: &mut [u8]) -> Result<usize, TooShort>
    ensures { Emits cells.now sorts.now rules table.old table.new (fault_in result) (size_in result) }
{
    if base::WORD_VALUES < cells.len() || base::RULES < rules {
        return Err(too_short(table, 0));
    }
    let mut slots = [0usize; base::RULES];
    // no word is written past the room
    let room = (table.len() / 2).min(base::TABLE_WORDS);
    let size = emit_rules(cells, sorts, rules, &mut slots, &mut table[..2 * room]);
    if room < size {
        return Err(too_short(table, size));
    }
    zero_from(table, size);
    Ok(size)
}
