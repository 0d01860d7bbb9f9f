// The rules' actions, resolved and appended as cells: lists of actions, cycles and choices, rule by rule.
#![tactic(auto)]

ghost use Rattle.std.specs.Prelude.{true, false, ◌&&◌, ◌||◌, [], ◌∷◌, ◌≡◌, ℕ, ◌+◌, ◌-◌, ◌%◌, ◌≤◌, ◌<◌, length, take, drop, set};
ghost use Rattle.scanner.specs.Next.{Next};
ghost use Rattle.base.specs.Faults.{fault_number};
ghost use Rattle.resolver.specs.Resolved.{Appends, Faulted, fault_told, built_told};
ghost use Rattle.symbols.specs.Index.{Kept};
ghost use Rattle.symbols.specs.Rows.{held};
ghost use Rattle.builder.specs.Heads.{taken_before, head_told, TypeDone, HeadDone};
ghost use Rattle.builder.specs.Row.{RuleDone, ruled_told};
ghost use Rattle.builder.specs.Rules.{sort_of, rules_told, RulesDone};
ghost use Rattle.builder.specs.Parts.{ActDone, ActsDone, CycleDone, ChoiceDone, AltsDone, OtherDone, LabelledDone, labelled_told, label_cells};

use base::{Fault, Refusal};
use reader::is_closing;
use resolver::{Built, Scope};
use scanner::WordAt;

// The first cell of an alternative without labels.
const ALTERNATIVE: usize = cells::ALTERNATIVE as usize;

// There are `count` cells of `rules` rules.
#[derive(Clone, Copy, Debug, PartialEq, Eq)]
pub struct Rules {
    pub count: usize,
    pub rules: usize,
}

// What the rows hold: n declarations, the first rule's being `first`.
#[derive(Clone, Copy, Debug, PartialEq, Eq)]
pub struct Listed {
    pub n: usize,
    pub first: usize,
}

// A place in the text, how many cells there are, and how many labels the choice has.
#[derive(Clone, Copy, Debug, PartialEq, Eq)]
pub struct Spot {
    pub at: usize,
    pub count: usize,
    pub used: usize,
}

// A choice: the class of its labels, and the cell that stands for no otherwise.
#[derive(Clone, Copy, Debug, PartialEq, Eq)]
pub struct Choice {
    pub labels: usize,
    pub absent: u16,
}

// An alternative, and how many labels its choice has now.
#[derive(Clone, Copy, Debug, PartialEq, Eq)]
pub struct Labelled {
    pub built: Built,
    pub used: usize,
}

// A rule's head: the place behind its colon, and its values' class (0: a procedure rule).
#[derive(Clone, Copy, Debug, PartialEq, Eq)]
pub struct Head {
    pub at: usize,
    pub class: usize,
}

// A rule that was read up to the place `at`: how many cells there are, and whether it is a choice rule.
#[derive(Clone, Copy, Debug, PartialEq, Eq)]
pub struct Ruled {
    pub at: usize,
    pub count: usize,
    pub valued: bool,
}

fn refused(fault: Fault, w: WordAt) -> Refusal
    ensures { Faulted (fault_number fault) w.start w.len (fault_told result) }
{
    Refusal {
        fault,
        at: w.start,
        len: w.len,
    }
}

// The next word.
fn look(text: &[u8], at: usize) -> WordAt
    ensures { Next text.now at result }
{
    scanner::next_word(text, at)
}

// How many labels an alternative has, and the labels, from the choice's.
fn put_labels(seen: &[u16], from: usize, to: usize, cells: &mut [u16], count: usize) -> usize
    requires { (from ≤ to) × (to ≤ length seen.now) × (length seen.now ≤ 64) }
    ensures { Appends cells.old count (label_cells seen.now from to) cells.new result }
{
    let mut c = resolver::put(cells, count, (ALTERNATIVE + (to - from)) as u16);
    for i in from..to {
        c = resolver::put(cells, c, seen[i]);
    }
    c
}

// Actions up to a word that closes them.
#[cycle(build_action_build_actions_build_alternatives_build_choice_build_cycle_build_labelled_build_otherwise)]
pub fn build_actions(
    text: &[u8],
    rows: &[u16],
    scope: Scope,
    at: usize,
    cells: &mut [u16],
    count: usize,
) -> Result<Built, Refusal>
    requires { (at ≤ length text.now) × Kept text.now rows.now scope.n }
    ensures { ActsDone text.now rows.now scope.n at scope.inside scope.class true false cells.old count cells.new (built_told result) }
{
    let mut i = at;
    let mut c = count;
    let mut past = true;
    let mut exits = false;
    // no range: what is read says where the next begins
    loop {
        let w = look(text, i);
        if is_closing(w.kind) {
            let count = resolver::put(cells, c, cells::END);
            return Ok(Built {
                at: i,
                count,
                past,
                exits,
            });
        }
        let a = build_action(text, rows, scope, i, w, cells, c)?;
        past &= a.past;
        exits |= a.exits;
        i = a.at;
        c = a.count;
    }
}

// An action, whose first word is w.
#[cycle(build_action_build_actions_build_alternatives_build_choice_build_cycle_build_labelled_build_otherwise)]
fn build_action(
    text: &[u8],
    rows: &[u16],
    scope: Scope,
    at: usize,
    w: WordAt,
    cells: &mut [u16],
    count: usize,
) -> Result<Built, Refusal>
    requires { (at ≤ length text.now) × Next text.now at w × Kept text.now rows.now scope.n }
    ensures { ActDone text.now rows.now scope.n at scope.inside scope.class cells.old count cells.new (built_told result) }
{
    if w.kind == words::DO {
        return build_cycle(text, rows, scope, w.next, cells, count);
    }
    if w.kind == words::IF {
        return build_choice(text, rows, scope, w.next, cells, count);
    }
    resolver::resolve_plain(text, rows, scope, at, w, cells, count)
}

// The rest of a cycle after its brace.
#[cycle(build_action_build_actions_build_alternatives_build_choice_build_cycle_build_labelled_build_otherwise)]
fn build_cycle(
    text: &[u8],
    rows: &[u16],
    scope: Scope,
    at: usize,
    cells: &mut [u16],
    count: usize,
) -> Result<Built, Refusal>
    requires { (at ≤ length text.now) × Kept text.now rows.now scope.n }
    ensures { CycleDone text.now rows.now scope.n at scope.class cells.old count cells.new (built_told result) }
{
    let c = resolver::put(cells, count, cells::CYCLE);
    let body = Scope {
        inside: true,
        ..scope
    };
    let b = build_actions(text, rows, body, at, cells, c)?;
    let w = look(text, b.at);
    // an exit belongs to the nearest cycle
    Ok(Built {
        at: w.next,
        count: b.count,
        past: b.exits,
        exits: false,
    })
}

// The rest of a choice after its bracket.
#[cycle(build_action_build_actions_build_alternatives_build_choice_build_cycle_build_labelled_build_otherwise)]
fn build_choice(
    text: &[u8],
    rows: &[u16],
    scope: Scope,
    at: usize,
    cells: &mut [u16],
    count: usize,
) -> Result<Built, Refusal>
    requires { (at ≤ length text.now) × Kept text.now rows.now scope.n }
    ensures { ChoiceDone text.now rows.now scope.n at scope.inside scope.class cells.old count cells.new (built_told result) }
{
    let s = resolver::resolve_selector(text, rows, scope.n, at, cells, count)?;
    let w = look(text, s.at);
    let mut seen: [u16; base::LABELS] = [0; base::LABELS];
    let spot = Spot {
        at: w.next,
        count: s.count,
        used: 0,
    };
    let choice = Choice {
        labels: s.class,
        absent: s.absent,
    };
    build_alternatives(text, rows, scope, spot, choice, &mut seen, cells)
}

// The alternatives of a choice, behind its bar; `seen` holds the labels so far.
#[cycle(build_action_build_actions_build_alternatives_build_choice_build_cycle_build_labelled_build_otherwise)]
fn build_alternatives(
    text: &[u8],
    rows: &[u16],
    scope: Scope,
    spot: Spot,
    choice: Choice,
    seen: &mut [u16],
    cells: &mut [u16],
) -> Result<Built, Refusal>
    requires { (spot.at ≤ length text.now) × Kept text.now rows.now scope.n × (length seen.old ≡ 64) × (spot.used ≤ 64) }
    ensures { AltsDone text.now rows.now scope.n spot.at scope.inside scope.class choice.labels choice.absent seen.old spot.used false false cells.old spot.count cells.new (built_told result) }
{
    let mut here = spot;
    let mut past = false;
    let mut exits = false;
    // no range: what is read says where the next begins
    loop {
        let w = look(text, here.at);
        if w.kind == words::STAR {
            let o = build_otherwise(text, rows, scope, w.next, cells, here.count)?;
            past |= o.past;
            exits |= o.exits;
            return Ok(Built { past, exits, ..o });
        }
        let l = build_labelled(text, rows, scope, here, choice.labels, seen, cells)?;
        let b = l.built;
        past |= b.past;
        exits |= b.exits;
        let s = look(text, b.at);
        if s.kind != words::BAR {
            let count = resolver::put(cells, b.count, choice.absent);
            return Ok(Built {
                at: s.next,
                count,
                past,
                exits,
            });
        }
        here = Spot {
            at: s.next,
            count: b.count,
            used: l.used,
        };
    }
}

// An alternative after its bar: its labels, of the class, and its actions.
#[cycle(build_action_build_actions_build_alternatives_build_choice_build_cycle_build_labelled_build_otherwise)]
fn build_labelled(
    text: &[u8],
    rows: &[u16],
    scope: Scope,
    spot: Spot,
    labels: usize,
    seen: &mut [u16],
    cells: &mut [u16],
) -> Result<Labelled, Refusal>
    requires { (spot.at ≤ length text.now) × Kept text.now rows.now scope.n × (length seen.old ≡ 64) × (spot.used ≤ 64) }
    ensures { LabelledDone text.now rows.now scope.n spot.at scope.inside scope.class labels seen.old spot.used seen.new cells.old spot.count cells.new (labelled_told result) }
{
    let n = scope.n;
    let used = spot.used;
    let l = resolver::resolve_labels(text, rows, n, spot.at, labels, seen, used)?;
    let w = look(text, l.at);
    let c = put_labels(seen, used, l.used, cells, spot.count);
    let built = build_actions(text, rows, scope, w.next, cells, c)?;
    Ok(Labelled {
        built,
        used: l.used,
    })
}

// The rest of otherwise after its star.
#[cycle(build_action_build_actions_build_alternatives_build_choice_build_cycle_build_labelled_build_otherwise)]
fn build_otherwise(
    text: &[u8],
    rows: &[u16],
    scope: Scope,
    at: usize,
    cells: &mut [u16],
    count: usize,
) -> Result<Built, Refusal>
    requires { (at ≤ length text.now) × Kept text.now rows.now scope.n }
    ensures { OtherDone text.now rows.now scope.n at scope.inside scope.class cells.old count cells.new (built_told result) }
{
    let w = look(text, at);
    let c = resolver::put(cells, count, cells::OTHERWISE);
    let b = build_actions(text, rows, scope, w.next, cells, c)?;
    let e = look(text, b.at);
    Ok(Built { at: e.next, ..b })
}

// An operation has the name, or a rule before declaration `before`.
fn is_taken(text: &[u8], rows: &[u16], n: usize, before: usize, start: usize, len: usize) -> bool
    requires { Kept text.now rows.now n × (before ≤ 640) }
    ensures { result ≡ taken_before (held text.now rows.now n) before (take len (drop start text.now)) }
{
    if symbols::has_row(text, rows, n, symbols::OPERATION, start, len) {
        return true;
    }
    match symbols::find_row(text, rows, n, symbols::RULE, start, len) {
        Some(rule) => rule < before,
        None => false,
    }
}

// A rule's type, where it has one, and its colon.
pub fn read_type(text: &[u8], rows: &[u16], n: usize, at: usize) -> Result<Head, Refusal>
    requires { (at ≤ length text.now) × Kept text.now rows.now n }
    ensures { TypeDone text.now rows.now n at (head_told result) }
{
    let g = look(text, at);
    if g.kind != words::TWICE {
        return Ok(Head {
            at: g.next,
            class: 0,
        });
    }
    let w = look(text, g.next);
    match symbols::type_of(text, rows, n, n, w.start, w.len) {
        Ok(class) => {
            let c = look(text, w.next);
            Ok(Head { at: c.next, class })
        }
        Err(fault) => Err(refused(fault, w)),
    }
}

// The head of rule k, the first rule being declaration `first`.
fn read_head(
    text: &[u8],
    rows: &[u16],
    n: usize,
    first: usize,
    k: usize,
    at: usize,
) -> Result<Head, Refusal>
    requires { (at ≤ length text.now) × Kept text.now rows.now n × (first ≤ 512) × (k < 128) }
    ensures { HeadDone text.now rows.now n first k at (head_told result) }
{
    let w = look(text, at);
    if is_taken(text, rows, n, first + k, w.start, w.len) {
        return Err(refused(Fault::Repeated, w));
    }
    let g = look(text, w.next);
    if k == 0 && g.kind == words::TWICE {
        return Err(refused(Fault::NotWanted, w));
    }
    read_type(text, rows, n, w.next)
}

// Rule k, its cells behind the first `count`.
fn build_rule(
    text: &[u8],
    rows: &[u16],
    listed: Listed,
    k: usize,
    at: usize,
    cells: &mut [u16],
    count: usize,
) -> Result<Ruled, Refusal>
    requires { (at ≤ length text.now) × Kept text.now rows.now listed.n × (listed.first ≤ 512) × (k < 128) }
    ensures { RuleDone text.now rows.now listed.n listed.first k at cells.old count cells.new (ruled_told result) }
{
    let h = read_head(text, rows, listed.n, listed.first, k, at)?;
    let scope = Scope {
        n: listed.n,
        inside: false,
        class: h.class,
    };
    let b = build_actions(text, rows, scope, h.at, cells, count)?;
    let valued = 0 < h.class;
    let w = look(text, b.at);
    if valued && b.past {
        return Err(refused(Fault::WrongReturn, w));
    }
    Ok(Ruled {
        at: w.next,
        count: b.count,
        valued,
    })
}

fn sort_of(valued: bool) -> u8
    ensures { result ≡ sort_of valued }
{
    if valued {
        cells::CHOICE_RULE
    } else {
        cells::PROCEDURE_RULE
    }
}

// Where rule k begins, and its sort.
fn store(starts: &mut [u16], sorts: &mut [u8], k: usize, c: usize, valued: bool)
    requires { (k < length starts.old) × (k < length sorts.old) }
    ensures starts_after { starts.new ≡ set starts.old k (c % 65536) }
    ensures sorts_after { sorts.new ≡ set sorts.old k (sort_of valued) }
{
    starts[k] = (c % 65536) as u16;
    sorts[k] = sort_of(valued);
}

// The rules from the place `at` on: their cells, where each begins, and its sort.
#[inline(never)]
pub fn build(
    text: &[u8],
    rows: &[u16],
    listed: Listed,
    at: usize,
    cells: &mut [u16],
    starts: &mut [u16],
    sorts: &mut [u8],
) -> Result<Rules, Refusal>
    requires { (at ≤ length text.now) × (listed.first ≤ 512) × Kept text.now rows.now listed.n × (length starts.old ≡ 128) × (length sorts.old ≡ 128) × (length cells.old ≤ 60000) }
    ensures { RulesDone text.now rows.now listed.n listed.first at cells.old cells.new starts.new sorts.new (rules_told result) }
{
    let mut i = at;
    let mut c: usize = 0;
    let mut k: usize = 0;
    // no range: what is read says where the next begins
    loop {
        let r = build_rule(text, rows, listed, k, i, cells, c)?;
        store(starts, sorts, k, c, r.valued);
        let next = k + 1;
        let w = look(text, r.at);
        if w.kind != words::NAME {
            return Ok(Rules {
                count: r.count,
                rules: next,
            });
        }
        if next == base::RULES {
            return Err(Refusal {
                fault: Fault::NotAllowed,
                at: r.at,
                len: 0,
            });
        }
        i = r.at;
        c = r.count;
        k = next;
    }
}
