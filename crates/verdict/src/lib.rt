// Whether a program is finishing, computed over its cells.
// Loops and tests here go by indices and returns: ranges, `match` and the library's tests were tried, and take more
// instructions than scripts/text-costs allows (docs/DESIGN-PASS.md).
#![tactic(auto)]

ghost use Rattle.std.specs.Prelude.{◌≡◌, ℕ, ◌+◌, ◌-◌, ◌<◌, ◌≤◌, true, false, ◌||◌, ◌&&◌, eqb, length, get_or, take, drop, ◌*◌, not};
ghost use Rattle.base.specs.Common.{member as listed};
ghost use Rattle.finishing.specs.Test.{some_below};
ghost use Rattle.verdict.specs.Told.{member, some_in, known_in, Simple, Giving, Then, Either, Covers, Worth, Cycled, Calling, Placed, past_cell, takes, heads, LeafTold, ActTold, ActsTold, AltsTold, ValuedTold, Collected, RuleTold, row_of, sought, GatheredTold, NotedTold, NotesTold, Joined, AskedTold, TriedTold, LookedTold, SweepTold, LearntTold, alike, Puts, Widened, Closure, Arrows, Verdict};

use base::{cell, number};

// First cells as a number that places are counted in.
const END: usize = cells::END as usize;

const EXIT: usize = cells::EXIT as usize;

const CYCLE: usize = cells::CYCLE as usize;

const ANY: usize = cells::ANY as usize;

const EMIT: usize = cells::EMIT as usize;

const ERROR: usize = cells::ERROR as usize;

const BY_TOKEN: usize = cells::BY_TOKEN as usize;

const CALL: usize = cells::CALL as usize;

const BACK: usize = cells::BACK as usize;

const GIVE: usize = cells::GIVE as usize;

const BY_RULE: usize = cells::BY_RULE as usize;

const OTHERWISE: usize = cells::OTHERWISE as usize;

const ALTERNATIVE: usize = cells::ALTERNATIVE as usize;

const PREFIX: usize = cells::PREFIX as usize;

const UPDATE: usize = cells::UPDATE as usize;

const UPDATE_WITH: usize = cells::UPDATE_WITH as usize;

const ASK: usize = cells::ASK as usize;

const ASK_WITH: usize = cells::ASK_WITH as usize;

// The bits of a word, and of the two words of a set.
const BITS: usize = 64;

const SET_BITS: usize = 2 * BITS;

// Values asked for at once, a bit each of a set.
const MOST_WANTED: usize = SET_BITS;

// The table of calls, two words for each rule.
const CALL_WORDS: usize = 2 * base::RULES;

// A word as a number that places are counted in: a cast in place would ask at each use that it fits.
fn wide(x: u16) -> usize
    ensures { (result ≡ x) × (result < 65536) }
{
    usize::from(x)
}

// A set of rules, a bit for each: rules 0 to 63 in lo, 64 to 127 in hi.
#[derive(Clone, Copy)]
pub struct Rules {
    pub lo: u64,
    pub hi: u64,
}

// The ways of quiet paths through some actions: to their end, to an exit, to a return, to calls, to returns of the values asked for (a bit for
// each); whether a cycle in them has a quiet path from its start to its end; and the cell behind them.
#[derive(Clone, Copy)]
pub struct Ways {
    pub end: bool,
    pub exit: bool,
    pub ret: bool,
    pub looping: bool,
    pub calls: Rules,
    pub given: Rules,
    pub next: usize,
}

// What is known of the rules: those that are passed quietly, and how many facts, of a rule and a value that it can quietly return.
#[derive(Clone, Copy)]
pub struct Learnt {
    pub passed: Rules,
    pub count: usize,
}

fn has(s: Rules, r: usize) -> bool
    ensures { result ≡ member s r }
{
    if r < BITS {
        return (s.lo >> r) & 1 == 1;
    }
    if r < SET_BITS {
        return (s.hi >> (r - BITS)) & 1 == 1;
    }
    false
}

fn with(s: Rules, r: usize) -> Rules
    ensures { (k : ℕ) → k < 128 → member result k ≡ (eqb r k || member s k) }
{
    if r < BITS {
        return Rules {
            lo: s.lo | (1 << r),
            hi: s.hi,
        };
    }
    if r < SET_BITS {
        return Rules {
            lo: s.lo,
            hi: s.hi | (1 << (r - BITS)),
        };
    }
    s
}

fn union(s: Rules, t: Rules) -> Rules
    ensures { (k : ℕ) → member result k ≡ (member s k || member t k) }
{
    Rules {
        lo: s.lo | t.lo,
        hi: s.hi | t.hi,
    }
}

// The place n cells on, the end at most.
fn ahead(cells: &[u16], at: usize, n: usize) -> usize
    requires { at ≤ length cells.now }
    ensures within { (at ≤ result) × (result ≤ length cells.now) }
    ensures moved { 0 < n → at < length cells.now → at < result }
    ensures there { drop result cells.now ≡ drop n (drop at cells.now) }
{
    if n <= cells.len() - at {
        return at + n;
    }
    cells.len()
}

// Ways with no calls, no value and no cycle.
fn simple(end: bool, exit: bool, ret: bool, next: usize) -> Ways
    ensures { Simple end exit ret next result }
{
    Ways {
        end,
        exit,
        ret,
        looping: false,
        calls: Rules { lo: 0, hi: 0 },
        given: Rules { lo: 0, hi: 0 },
        next,
    }
}

// The ways of a `>>` with a value: of the values asked for those that it is.
fn giving(given: Rules, next: usize) -> Ways
    ensures { Giving given next result }
{
    Ways {
        end: false,
        exit: false,
        ret: true,
        looping: false,
        calls: Rules { lo: 0, hi: 0 },
        given,
        next,
    }
}

// The ways of what w is of, and then what a is of.
fn then(w: Ways, a: Ways) -> Ways
    ensures { Then w a result }
{
    let wc = w.calls;
    let ac = a.calls;
    let wg = w.given;
    let ag = a.given;
    if w.end {
        return Ways {
            end: a.end,
            exit: w.exit | a.exit,
            ret: w.ret | a.ret,
            looping: w.looping | a.looping,
            calls: union(wc, ac),
            given: union(wg, ag),
            next: a.next,
        };
    }
    Ways {
        end: false,
        exit: w.exit,
        ret: w.ret,
        looping: w.looping | a.looping,
        calls: wc,
        given: wg,
        next: a.next,
    }
}

// The ways of w, with those of a where they are open.
fn either(w: Ways, a: Ways, on: bool) -> Ways
    ensures { Either w a on result }
{
    let wc = w.calls;
    let ac = a.calls;
    let wg = w.given;
    let ag = a.given;
    if on {
        return Ways {
            end: w.end | a.end,
            exit: w.exit | a.exit,
            ret: w.ret | a.ret,
            looping: w.looping | a.looping,
            calls: union(wc, ac),
            given: union(wg, ag),
            next: a.next,
        };
    }
    Ways {
        end: w.end,
        exit: w.exit,
        ret: w.ret,
        looping: w.looping | a.looping,
        calls: wc,
        given: wg,
        next: a.next,
    }
}

// The ways of a bring nothing to those of w.
fn is_covered(w: Ways, a: Ways) -> bool
    ensures { result ≡ true → Covers w a }
{
    let wc = w.calls;
    let ac = a.calls;
    let wg = w.given;
    let ag = a.given;
    let c = union(wc, ac);
    let g = union(wg, ag);
    if a.end & !w.end {
        return false;
    }
    if a.exit & !w.exit {
        return false;
    }
    if a.ret & !w.ret {
        return false;
    }
    if c.lo != wc.lo {
        return false;
    }
    if c.hi != wc.hi {
        return false;
    }
    if g.lo != wg.lo {
        return false;
    }
    g.hi == wg.hi
}

// How many of m facts are worth a look: none, where they could only open ways that bring nothing. A first return is tested first: it is the commonest to bring.
fn worth(w: Ways, a: Ways, m: usize) -> usize
    ensures { Worth w a m result }
{
    if a.ret & !w.ret {
        return m;
    }
    if is_covered(w, a) {
        return 0;
    }
    m
}

// The ways of a cycle from those of its body.
fn cycled(b: Ways) -> Ways
    ensures { Cycled b result }
{
    let c = b.calls;
    let g = b.given;
    Ways {
        end: b.exit,
        exit: false,
        ret: b.ret,
        looping: b.end | b.looping,
        calls: c,
        given: g,
        next: b.next,
    }
}

// The same ways, with a call of r more.
fn calling(b: Ways, r: usize) -> Ways
    ensures { Calling b r result }
{
    let c = b.calls;
    let g = b.given;
    Ways {
        end: b.end,
        exit: b.exit,
        ret: b.ret,
        looping: b.looping,
        calls: with(c, r),
        given: g,
        next: b.next,
    }
}

// The same ways up to another place.
fn placed(b: Ways, next: usize) -> Ways
    ensures { Placed b next result }
{
    let c = b.calls;
    let g = b.given;
    Ways {
        end: b.end,
        exit: b.exit,
        ret: b.ret,
        looping: b.looping,
        calls: c,
        given: g,
        next,
    }
}

// The cells that an action takes that holds no other, by the first of them.
fn taken(tag: usize) -> usize
    ensures { result ≡ takes tag }
{
    if (tag == EXIT) | (tag == ANY) | (tag == BACK) {
        return 1;
    }
    if tag < UPDATE {
        return 2;
    }
    if tag < UPDATE_WITH {
        return 1;
    }
    2
}

// The cells before the alternatives of a choice by the token or by an operation, by the first of them.
fn head(tag: usize) -> usize
    ensures { result ≡ heads tag }
{
    if tag < ASK_WITH {
        return 1;
    }
    2
}

// A quiet path goes past such an action.
fn past(tag: usize) -> bool
    ensures { result ≡ past_cell tag }
{
    (tag == EMIT) | (tag == ERROR) | (UPDATE <= tag)
}

// The set, with r where it is to be.
fn marked(s: Rules, r: usize, on: bool) -> Rules
    ensures { (k : ℕ) → k < 128 → member result k ≡ ((on && eqb r k) || member s k) }
{
    if on {
        return with(s, r);
    }
    s
}

// Some value asked for is v. Without an early way out, so that several are compared at once.
fn asks(wanted: &[u16], v: u16) -> bool
    ensures { result ≡ false → (j : ℕ) → j < length wanted.now → eqb v (get_or wanted.now j 0) ≡ false }
{
    let mut some = false;
    let mut j = 0;
    while j < wanted.len() {
        some = some | (v == wanted[j]);
        j += 1;
    }
    some
}

// Of the values asked for those that are v, a bit for each.
fn matches(wanted: &[u16], v: u16) -> Rules
    ensures { (j : ℕ) → j < length wanted.now → j < 128 → member result j ≡ eqb v (get_or wanted.now j 0) }
{
    let mut s = Rules { lo: 0, hi: 0 };
    if !asks(wanted, v) {
        return s;
    }
    let mut j = 0;
    while j < wanted.len() {
        s = marked(s, j, v == wanted[j]);
        j += 1;
    }
    s
}

// The ways of an action that holds no other.
fn leaf(cells: &[u16], at: usize, ps: Rules, wanted: &[u16]) -> Ways
    requires { at < length cells.now }
    ensures { LeafTold cells.now at ps wanted.now result }
{
    let tag = number(cells, at);
    if tag == CALL {
        let r = number(cells, at + 1);
        return calling(simple(has(ps, r), false, false, ahead(cells, at, 2)), r);
    }
    if tag == GIVE {
        return giving(matches(wanted, cell(cells, at + 1)), ahead(cells, at, 2));
    }
    simple(
        past(tag),
        tag == EXIT,
        tag == BACK,
        ahead(cells, at, taken(tag)),
    )
}

// Some cell from one place to another is v.
fn holds(cells: &[u16], from: usize, to: usize, v: u16) -> bool
    requires { (from ≤ to) × (to ≤ length cells.now) }
    ensures { result ≡ listed v (take (to - from) (drop from cells.now)) }
{
    let mut i = from;
    while i < to {
        if cells[i] == v {
            return true;
        }
        i += 1;
    }
    false
}

// A fact as one number, as wide as its two words, so that several are compared at once.
fn packed(r: u16, v: u16) -> u32
    ensures { (result ≡ r + 65536 * v) × (r < 65536) }
{
    u32::from(r) + 65536 * u32::from(v)
}

// Rule r is known to return v.
fn told(facts: &[u16], m: usize, r: u16, v: u16) -> bool
    requires { 2 * m ≤ length facts.now }
    ensures { result ≡ some_in facts.now m r (λ u. eqb u v) }
{
    let fact = packed(r, v);
    let mut some = false;
    let mut i = 0;
    while i < m {
        some = some | (packed(facts[2 * i], facts[2 * i + 1]) == fact);
        i += 1;
    }
    some
}

// Some value that rule r is known to return stands from one place to another.
fn opened(cells: &[u16], from: usize, to: usize, facts: &[u16], m: usize, r: u16) -> bool
    requires { (from ≤ to) × (to ≤ length cells.now) × (2 * m ≤ length facts.now) }
    ensures { result ≡ some_in facts.now m r (λ v. listed v (take (to - from) (drop from cells.now))) }
{
    let mut i = from;
    while i < to {
        if told(facts, m, r, cells[i]) {
            return true;
        }
        i += 1;
    }
    false
}

// Fact i is that rule r returns a value that is none of the first n labels.
fn lacks(labels: &[u16], n: usize, facts: &[u16], i: usize, r: u16) -> bool
    requires { (n ≤ length labels.now) × (2 * i + 1 < length facts.now) }
    ensures { result ≡ (eqb (get_or facts.now (2 * i) 0) r && not (listed (get_or facts.now (2 * i + 1) 0) (take n labels.now))) }
{
    if facts[2 * i] == r {
        return !holds(labels, 0, n, facts[2 * i + 1]);
    }
    false
}

// Some value that rule r is known to return is none of the first n labels.
fn unnamed(labels: &[u16], n: usize, facts: &[u16], m: usize, r: u16) -> bool
    requires { (n ≤ length labels.now) × (2 * m ≤ length facts.now) }
    ensures { result ≡ some_in facts.now m r (λ v. not (listed v (take n labels.now))) }
{
    let mut i = 0;
    while i < m {
        if lacks(labels, n, facts, i, r) {
            return true;
        }
        i += 1;
    }
    false
}

// The labels with those from one place to another behind the first n, as many as there is room for; how many there are then.
#[inline(never)]
fn collected(cells: &[u16], from: usize, to: usize, labels: &mut [u16], n: usize) -> usize
    requires { (from ≤ to) × (to ≤ length cells.now) × (n ≤ length labels.old) }
    ensures within { result ≤ length labels.new }
    ensures all { Collected cells.now from to labels.old n labels.new result }
{
    let mut i = from;
    let mut k = n;
    while i < to {
        if labels.len() <= k {
            return k;
        }
        labels[k] = cells[i];
        k += 1;
        i += 1;
    }
    k
}

// The ways of one action. Alternatives are scanned from one place here, so that the scan of nested ones needs no frame more.
#[cycle(act_acts_alts_valued)]
#[inline(never)]
fn act(cells: &[u16], at: usize, known: Learnt, facts: &[u16], wanted: &[u16]) -> Ways
    requires { (at < length cells.now) × (2 * known.count ≤ length facts.now) }
    ensures { ActTold cells.now at (known_in known.passed facts.now known.count) wanted.now result }
{
    let tag = number(cells, at);
    if tag == CYCLE {
        return cycled(acts(cells, at + 1, known, facts, wanted));
    }
    if tag == BY_RULE {
        let r = cell(cells, at + 1);
        return calling(
            valued(cells, ahead(cells, at, 2), known, facts, wanted, r),
            wide(r),
        );
    }
    let token = tag == BY_TOKEN;
    if token | (ASK <= tag) {
        let to = ahead(cells, at, head(tag));
        return alts(cells, to, known, facts, wanted, !token, true);
    }
    leaf(cells, at, known.passed, wanted)
}

// The ways of actions in a row. Of none they are known at once: an empty otherwise is common.
#[cycle(act_acts_alts_valued)]
fn acts(cells: &[u16], at: usize, known: Learnt, facts: &[u16], wanted: &[u16]) -> Ways
    requires { (at ≤ length cells.now) × (2 * known.count ≤ length facts.now) }
    ensures { ActsTold cells.now at (known_in known.passed facts.now known.count) wanted.now result }
{
    let mut w = simple(true, false, false, at);
    if number(cells, at) == END {
        return placed(w, ahead(cells, at, 1));
    }
    let mut i = at;
    while number(cells, i) != END {
        w = then(w, act(cells, i, known, facts, wanted));
        i = w.next;
    }
    placed(w, ahead(cells, i, 1))
}

// The ways of alternatives by a token or an operation, labelled ones counting where x, otherwise where y.
#[cycle(act_acts_alts_valued)]
fn alts(
    cells: &[u16],
    at: usize,
    known: Learnt,
    facts: &[u16],
    wanted: &[u16],
    x: bool,
    y: bool,
) -> Ways
    requires { (at ≤ length cells.now) × (2 * known.count ≤ length facts.now) }
    ensures { AltsTold cells.now at (known_in known.passed facts.now known.count) wanted.now x y result }
{
    let mut w = simple(false, false, false, at);
    let mut i = at;
    let mut tag = number(cells, at);
    while ALTERNATIVE <= tag {
        let b = acts(cells, ahead(cells, i, tag - PREFIX), known, facts, wanted);
        w = either(w, b, x);
        i = b.next;
        tag = number(cells, i);
    }
    if tag == OTHERWISE {
        return either(w, acts(cells, ahead(cells, i, 1), known, facts, wanted), y);
    }
    placed(w, ahead(cells, i, 1))
}

// The ways of alternatives by the value of rule r: one counts that has a label among the values known of r, otherwise if one of them is no label.
#[cycle(act_acts_alts_valued)]
fn valued(cells: &[u16], at: usize, known: Learnt, facts: &[u16], wanted: &[u16], r: u16) -> Ways
    requires { (at ≤ length cells.now) × (2 * known.count ≤ length facts.now) }
    ensures { ValuedTold cells.now at (known_in known.passed facts.now known.count) wanted.now r result }
{
    let mut labels = [0u16; base::LABELS];
    let mut n = 0;
    let mut w = simple(false, false, false, at);
    let mut i = at;
    let mut tag = number(cells, at);
    while ALTERNATIVE <= tag {
        let from = ahead(cells, i, 1);
        let to = ahead(cells, from, tag - ALTERNATIVE);
        n = collected(cells, from, to, &mut labels, n);
        let b = acts(cells, to, known, facts, wanted);
        let m = worth(w, b, known.count);
        w = either(w, b, opened(cells, from, to, facts, m, r));
        i = b.next;
        tag = number(cells, i);
    }
    if tag == OTHERWISE {
        let y = unnamed(&labels, n, facts, known.count, r);
        return either(w, acts(cells, ahead(cells, i, 1), known, facts, wanted), y);
    }
    placed(w, ahead(cells, i, 1))
}

// The ways of a rule's actions.
fn rule(
    cells: &[u16],
    starts: &[u16],
    r: usize,
    known: Learnt,
    facts: &[u16],
    wanted: &[u16],
) -> Ways
    requires { 2 * known.count ≤ length facts.now }
    ensures { RuleTold cells.now starts.now r (known_in known.passed facts.now known.count) wanted.now result }
{
    let at = number(starts, r);
    acts(cells, ahead(cells, 0, at), known, facts, wanted)
}

// Values to ask for: how many, and the cell behind the last one looked at.
#[derive(Clone, Copy)]
pub struct Query {
    pub count: usize,
    pub next: usize,
}

// A cell 10 (a `>>`, or any number that is 10) has behind it a value that rule r is not known to return.
fn seeks(cells: &[u16], i: usize, facts: &[u16], m: usize, r: u16) -> bool
    requires { (i < length cells.now) × (2 * m ≤ length facts.now) }
    ensures { result ≡ sought cells.now i facts.now m r }
{
    if number(cells, i) == GIVE {
        return !told(facts, m, r, cell(cells, i + 1));
    }
    false
}

// The values behind the cells 10 from one place to another that rule r is not known to return, as many as can be asked for at once.
fn gathered(
    cells: &[u16],
    from: usize,
    to: usize,
    facts: &[u16],
    m: usize,
    r: u16,
    wanted: &mut [u16],
) -> Query
    requires { (from ≤ to) × (to ≤ length cells.now) × (2 * m ≤ length facts.now) × (0 < length wanted.old) }
    ensures { GatheredTold cells.now from to facts.now m r wanted.new result }
{
    let mut n = 0;
    let mut i = from;
    while i < to {
        if seeks(cells, i, facts, m, r) {
            if wanted.len() <= n {
                return Query { count: n, next: i };
            }
            wanted[n] = cell(cells, i + 1);
            n += 1;
        }
        i += 1;
    }
    Query { count: n, next: i }
}

// The facts with one more, that rule r returns v, if it is not among them and there is room; how many there are then.
fn noted(facts: &mut [u16], m: usize, r: u16, v: u16) -> usize
    requires { 2 * m ≤ length facts.old }
    ensures { NotedTold facts.old m r v facts.new result }
{
    if told(facts, m, r, v) {
        return m;
    }
    if facts.len() - 2 * m < 2 {
        return m;
    }
    facts[2 * m] = r;
    facts[2 * m + 1] = v;
    m + 1
}

// The facts with those of the first n values that rule r was seen to return; how many there are then.
fn grown(facts: &mut [u16], m: usize, r: u16, wanted: &[u16], n: usize, given: Rules) -> usize
    requires { (2 * m ≤ length facts.old) × (n ≤ length wanted.now) }
    ensures { NotesTold facts.old m r wanted.now n given facts.new result }
{
    let mut k = m;
    let mut j = 0;
    while j < n {
        if has(given, j) {
            k = noted(facts, k, r, wanted[j]);
        }
        j += 1;
    }
    k
}

// What looks at a rule brought: what is known then, the values of the last look's that it returns (a bit for each), the cell up to which its values were tried,
// and the rule's end.
#[derive(Clone, Copy)]
pub struct Look {
    pub known: Learnt,
    pub given: Rules,
    pub at: usize,
    pub end: usize,
}

// The rules passed, with r if it is on.
fn joined(ps: Rules, r: usize, on: bool) -> Rules
    ensures { Joined ps r on result }
{
    if on {
        if !has(ps, r) {
            return with(ps, r);
        }
    }
    ps
}

// One look at rule r: it may be passed, and may return values asked for, which are those that stand up to a place.
fn tried(
    cells: &[u16],
    starts: &[u16],
    r: u16,
    k: Learnt,
    facts: &mut [u16],
    wanted: &[u16],
    at: usize,
) -> Look
    requires { (length wanted.now ≤ 128) × (2 * k.count ≤ length facts.old) × (r < 128) }
    ensures { AskedTold cells.now starts.now r k facts.old wanted.now at result facts.new }
{
    let w = rule(cells, starts, wide(r), k, facts, wanted);
    let ps = k.passed;
    let given = w.given;
    let count = grown(facts, k.count, r, wanted, wanted.len(), given);
    Look {
        known: Learnt {
            passed: joined(ps, wide(r), w.end | w.ret),
            count,
        },
        given,
        at,
        end: w.next,
    }
}

// The first n values without those of a set; how many are left.
fn without(wanted: &mut [u16], n: usize, given: Rules) -> usize
    requires { n ≤ length wanted.old }
    ensures { result ≤ n }
{
    let mut k = 0;
    let mut j = 0;
    while j < n {
        if !has(given, j) {
            wanted[k] = wanted[j];
            k += 1;
        }
        j += 1;
    }
    k
}

// The facts that there were before a look at rule r, where a further one may bring more: it brought some, and the rule calls itself. Else all that there are.
fn facts_before(cells: &[u16], from: usize, to: usize, r: u16, had: usize, count: usize) -> usize
    ensures { had ≤ count → had ≤ result }
{
    if had < count {
        if calls(cells, from, to, wide(r)) {
            return had;
        }
    }
    count
}

// Rule r looked at for the values that stand from one place to another, as many as can be asked for at once; where it calls itself, until a look brings no value
// more: what one value opens may return the next.
fn tried_to_fixpoint(
    cells: &[u16],
    starts: &[u16],
    r: u16,
    k: Learnt,
    facts: &mut [u16],
    from: usize,
    to: usize,
) -> Look
    requires { (from ≤ to) × (to ≤ length cells.now) × (2 * k.count ≤ length facts.old) × (r < 128) }
    ensures { TriedTold cells.now starts.now r k facts.old from to result facts.new }
{
    let mut wanted = [0u16; MOST_WANTED];
    let g = gathered(cells, from, to, facts, k.count, r, &mut wanted);
    let at = g.next;
    let mut n = g.count;
    let mut t = tried(cells, starts, r, k, facts, &wanted[..n], at);
    let mut had = facts_before(cells, from, to, r, k.count, t.known.count);
    while had < t.known.count {
        n = without(&mut wanted, n, t.given);
        had = t.known.count;
        t = tried(cells, starts, r, t.known, facts, &wanted[..n], at);
    }
    t
}

// Where rule r's cells are thought to end: where the next rule's begin. Nothing depends on it but the number of looks.
fn bound(cells: &[u16], starts: &[u16], r: usize, at: usize) -> usize
    requires { (at ≤ length cells.now) × (r < 128) }
    ensures { (at ≤ result) × (result ≤ length cells.now) }
{
    let n = number(starts, r + 1);
    if n < at {
        return at;
    }
    if cells.len() < n {
        return at;
    }
    n
}

// One rule looked at until all its values have been tried.
fn looked(cells: &[u16], starts: &[u16], r: u16, k: Learnt, facts: &mut [u16]) -> Learnt
    requires { (2 * k.count ≤ length facts.old) × (r < 128) }
    ensures { LookedTold cells.now starts.now r k facts.old result facts.new }
{
    let at = ahead(cells, 0, number(starts, wide(r)));
    let to = bound(cells, starts, wide(r), at);
    let mut t = tried_to_fixpoint(cells, starts, r, k, facts, at, to);
    while t.at < t.end {
        t = tried_to_fixpoint(cells, starts, r, t.known, facts, t.at, t.end);
    }
    t.known
}

// Every rule looked at, the last first: rules mostly call those that stand behind them.
fn sweep(cells: &[u16], starts: &[u16], n: usize, k: Learnt, facts: &mut [u16]) -> Learnt
    requires { (2 * k.count ≤ length facts.old) × (n ≤ 128) }
    ensures { SweepTold cells.now starts.now n 0 k facts.old result facts.new }
{
    let mut j = k;
    let mut r = n;
    while 0 < r {
        r -= 1;
        j = looked(cells, starts, r as u16, j, facts);
    }
    j
}

// Some cell from one place to another is that of a call, and the cell behind it is r.
fn calls(cells: &[u16], from: usize, to: usize, r: usize) -> bool {
    let mut i = from;
    while i < to {
        let tag = number(cells, i);
        if (tag == CALL) | (tag == BY_RULE) {
            if number(cells, i + 1) == r {
                return true;
            }
        }
        i += 1;
    }
    false
}

// Where a rule's cells are thought to end.
fn thought_end(cells: &[u16], to: usize, from: usize) -> usize {
    if to < from {
        return cells.len();
    }
    to
}

// The set with the rules from one number to another that call rule r. Nothing depends on it but the number of looks.
fn callers(cells: &[u16], starts: &[u16], first: usize, end: usize, r: usize, s: Rules) -> Rules {
    let mut t = s;
    let mut i = first;
    while i < end {
        let from = number(starts, i);
        let to = thought_end(cells, number(starts, i + 1), from);
        t = marked(t, i, calls(cells, from, to, r));
        i += 1;
    }
    t
}

// Up to n, or no way.
fn upto(n: usize, none: bool) -> usize {
    if none {
        return 0;
    }
    n
}

// One rule looked at, where that is due.
fn looked_if(
    cells: &[u16],
    starts: &[u16],
    r: u16,
    k: Learnt,
    facts: &mut [u16],
    on: bool,
) -> Learnt
    requires { (2 * k.count ≤ length facts.old) × (r < 128) }
    ensures { (n : ℕ) → r < n → SweepTold cells.now starts.now n n k facts.old result facts.new }
{
    if on {
        return looked(cells, starts, r, k, facts);
    }
    k
}

// What a round over the rules that were due brought, and the rules that are due in the next.
#[derive(Clone, Copy)]
struct Brought {
    known: Learnt,
    next: Rules,
}

// The rules that are due looked at, the last first. Where a look brings something, the rules that call that rule are due.
fn round(
    cells: &[u16],
    starts: &[u16],
    n: usize,
    k: Learnt,
    facts: &mut [u16],
    due: Rules,
) -> Brought
    requires { (2 * k.count ≤ length facts.old) × (n ≤ 128) }
    ensures { SweepTold cells.now starts.now n n k facts.old result.known facts.new }
{
    let mut j = k;
    let mut now = due;
    let mut next = Rules { lo: 0, hi: 0 };
    let mut r = n;
    while 0 < r {
        r -= 1;
        let t = looked_if(cells, starts, r as u16, j, facts, has(now, r));
        let same = unchanged(t, j);
        now = callers(cells, starts, 0, upto(r, same), r, now);
        next = callers(cells, starts, r, upto(n, same), r, next);
        j = t;
    }
    Brought { known: j, next }
}

// One less; 0 where nothing is due.
fn less(left: usize, due: Rules) -> usize
    requires { 0 < left }
    ensures { result < left }
{
    if (due.lo == 0) & (due.hi == 0) {
        return 0;
    }
    left - 1
}

// Rounds until nothing is due, or many of them.
fn rounds(cells: &[u16], starts: &[u16], n: usize, k: Learnt, facts: &mut [u16]) -> Learnt
    requires { (2 * k.count ≤ length facts.old) × (n ≤ 128) }
    ensures { SweepTold cells.now starts.now n n k facts.old result facts.new }
{
    let mut j = k;
    let mut due = Rules {
        lo: 18446744073709551615,
        hi: 18446744073709551615,
    };
    let mut left: usize = 10000;
    while 0 < left {
        let t = round(cells, starts, n, j, facts, due);
        j = t.known;
        due = t.next;
        left = less(left, due);
    }
    j
}

// A sweep, late ones behind rounds.
fn swept(
    cells: &[u16],
    starts: &[u16],
    n: usize,
    k: Learnt,
    facts: &mut [u16],
    late: bool,
) -> Learnt
    requires { (2 * k.count ≤ length facts.old) × (n ≤ 128) }
    ensures { SweepTold cells.now starts.now n 0 k facts.old result facts.new }
{
    if late {
        let m = rounds(cells, starts, n, k, facts);
        return sweep(cells, starts, n, m, facts);
    }
    sweep(cells, starts, n, k, facts)
}

fn before(n: usize) -> usize {
    if n == 0 {
        return 0;
    }
    n - 1
}

// The same is known.
fn unchanged(j: Learnt, k: Learnt) -> bool
    ensures { result ≡ alike j k }
{
    let js = j.passed;
    let ks = k.passed;
    (js.lo == ks.lo) & (js.hi == ks.hi) & (j.count == k.count)
}

// All that is known: sweeps until one brings nothing.
fn settled(cells: &[u16], starts: &[u16], n: usize, facts: &mut [u16]) -> Learnt
    requires { n ≤ 128 }
    ensures { LearntTold cells.now starts.now n result facts.new }
{
    let mut k = Learnt {
        passed: Rules { lo: 0, hi: 0 },
        count: 0,
    };
    let mut more = true;
    let mut early: usize = 4;
    while more {
        let j = swept(cells, starts, n, k, facts, early == 0);
        more = !unchanged(j, k);
        k = j;
        early = before(early);
    }
    k
}

// Row r of the table of calls.
fn row(rows: &[u64], r: usize) -> Rules
    requires { (r < 128) × (256 ≤ length rows.now) }
    ensures { result ≡ row_of rows.now r }
{
    Rules {
        lo: rows[2 * r],
        hi: rows[2 * r + 1],
    }
}

// Row r becomes s.
fn put(rows: &mut [u64], r: usize, s: Rules)
    requires { (r < 128) × (256 ≤ length rows.old) }
    ensures { Puts rows.old r s rows.new }
{
    rows[2 * r] = s.lo;
    rows[2 * r + 1] = s.hi;
}

// a, with b where it has k.
fn widened(a: Rules, b: Rules, k: usize) -> Rules
    ensures { (s : ℕ) → member result s ≡ (member a s || (member a k && member b s)) }
{
    if has(a, k) {
        return union(a, b);
    }
    a
}

// Every row that has k, with row k.
fn widen(rows: &mut [u64], n: usize, k: usize)
    requires { (n ≤ 128) × (k < 128) × (256 ≤ length rows.old) }
    ensures { Widened rows.old n k rows.new }
{
    let b = row(rows, k);
    let mut r = 0;
    while r < n {
        let a = row(rows, r);
        put(rows, r, widened(a, b, k));
        r += 1;
    }
}

// The closure of the first n rows.
fn closed(rows: &mut [u64], n: usize)
    requires { (n ≤ 128) × (256 ≤ length rows.old) }
    ensures { Closure rows.old n rows.new }
{
    let mut k = 0;
    while k < n {
        widen(rows, n, k);
        k += 1;
    }
}

// The rows of the rules' calls, and whether a cycle has a quiet path from its start to its end.
fn arrows(
    cells: &[u16],
    starts: &[u16],
    n: usize,
    k: Learnt,
    facts: &[u16],
    rows: &mut [u64],
) -> bool
    requires { (n ≤ 128) × (256 ≤ length rows.old) × (2 * k.count ≤ length facts.now) }
    ensures { Arrows cells.now starts.now n (known_in k.passed facts.now k.count) result rows.new }
{
    let mut looping = false;
    let mut r = 0;
    while r < n {
        let w = rule(cells, starts, r, k, facts, &facts[..0]);
        let c = w.calls;
        put(rows, r, c);
        looping = looping | w.looping;
        r += 1;
    }
    looping
}

// Some rule comes to itself.
fn itself(rows: &[u64], n: usize) -> bool
    requires { (n ≤ 128) × (256 ≤ length rows.now) }
    ensures { result ≡ some_below n (λ r. member (row_of rows.now r) r) }
{
    let mut some = false;
    let mut r = 0;
    while r < n {
        some = some | has(row(rows, r), r);
        r += 1;
    }
    some
}

// The verdict on a program of n rules.
fn decided(cells: &[u16], starts: &[u16], n: usize, facts: &mut [u16]) -> bool
    requires { n ≤ 128 }
    ensures { Verdict cells.now starts.now n (length facts.old) result }
{
    let k = settled(cells, starts, n, facts);
    let mut rows = [0u64; CALL_WORDS];
    let looping = arrows(cells, starts, n, k, facts, &mut rows);
    closed(&mut rows, n);
    let again = itself(&rows, n);
    !(looping | again)
}

// Whether the program of count rules is finishing whose cells these are, rule r's from the place that starts says on. At most 128 rules are
// looked at: of more, and of cells that are no program's, the answer says nothing. The facts are lent, two numbers each: room for as many numbers
// as a program has cells, 4224 at most, is enough; of less the answer says nothing either.
#[inline(never)]
pub fn verdict(cells: &[u16], starts: &[u16], count: usize, facts: &mut [u16]) -> bool
    ensures { Verdict cells.now starts.now count (length facts.old) result }
{
    if count <= base::RULES {
        return decided(cells, starts, count, facts);
    }
    false
}
