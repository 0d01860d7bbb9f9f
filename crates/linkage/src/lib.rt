// Linking as a whole.
#![tactic(auto)]

ghost use Rattle.std.specs.Prelude.{List, ◌++◌, ◌≡◌, ℕ, ◌+◌, ◌<◌, ◌≤◌, length, take, drop, slice_set};
ghost use Rattle.base.specs.Common.{given};
ghost use Rattle.cells.specs.Cells.{sort_of};
ghost use Rattle.linkage.specs.Bodies.{BodyAt};
ghost use Rattle.linkage.specs.Closing.{Lows, places_of, Behind, Turned};
ghost use Rattle.linkage.specs.Concluded.{IsReady, Concludes};
ghost use Rattle.linkage.specs.Groups.{GroupAt, ClosesGroup, ClosesAll};
ghost use Rattle.linkage.specs.Placed.{Placed};
ghost use Rattle.linkchecks.specs.Row.{row_from};
ghost use Rattle.linkchecks.specs.Walk.{Viewed};
ghost use Rattle.linker.specs.Close as close;
ghost use Rattle.linker.specs.Place.{texts_end};
ghost use Rattle.machine.specs.Bytes.{words_of};
ghost use Rattle.objects.specs.View.{RuleView, View, rule_words};
ghost use Rattle.resolver.specs.Resolved.{Appends};

use frontend::Resolved;
use levels::Made;
use linker::{NAME_BYTES, NAME_SIZE};
use objects::{number, total};
use translator::Answer;

// The words of an object before the common part, and the places among them: the bytes of the common part, the numbers of rules and of pairs.
const HEADER: usize = 7;

const COMMON_SIZE: usize = 3;

const RULES: usize = 5;

const PAIRS: usize = 6;

// A start past all room.
const LAST_START: usize = 65535;

// Names that stand one behind the other in the words: `left` of them, from the word `at` on.
#[derive(Clone, Copy, Debug, PartialEq, Eq)]
pub struct Names {
    pub at: usize,
    pub left: usize,
}

// The pairs of an object, `count` from the word `at` on; how many pairs of all objects are collected.
#[derive(Clone, Copy, Debug, PartialEq, Eq)]
pub struct Uses {
    pub at: usize,
    pub count: usize,
    pub collected: usize,
}

// A rule in the words of an object: its cells, `count` from the word `at` on; the names of its calls; the pairs of its object.
#[derive(Clone, Copy, Debug, PartialEq, Eq)]
pub struct Body {
    pub at: usize,
    pub count: usize,
    pub calls: Names,
    pub uses: Uses,
}

// The rules of an object: `left` of them, from the word `at` on; its pairs.
#[derive(Clone, Copy, Debug, PartialEq, Eq)]
pub struct Group {
    pub at: usize,
    pub left: usize,
    pub uses: Uses,
}

// Where a pass over the cells stands: the last first cell, how many cells are left behind it, the names of the calls that are left, and what the last cell became.
#[derive(Clone, Copy, Debug, PartialEq, Eq)]
pub struct Spot {
    pub first: u16,
    pub left: usize,
    pub calls: Names,
    pub cell: u16,
}

// The number of the lowest rule of the object's pair k.
fn low_of(objects: &[u8], sites: &[usize], lowest: &[u16], uses: Uses, k: usize) -> u16
    requires { (uses.collected ≤ length sites.now) × (uses.collected ≤ length lowest.now) × (uses.at ≤ length (words_of objects.now)) }
    ensures { (low : ℕ → ℕ) → Lows (words_of objects.now) sites.now lowest.now uses low → result ≡ low k }
{
    if k >= uses.count {
        return 0;
    }
    let Some(p) = objects::past_pairs(objects, uses.at, k) else {
        return 0;
    };
    linkpairs::lowest_at(objects, sites, lowest, uses.collected, p)
}

// The number for a mark: of the rule of the call's name, or of the lowest rule of a pair.
fn aimed(
    objects: &[u8],
    names: &[usize],
    sites: &[usize],
    lowest: &[u16],
    uses: Uses,
    calls: Names,
    mark: u16,
) -> u16
    requires { (uses.collected ≤ length sites.now) × (uses.collected ≤ length lowest.now) × (uses.at ≤ length (words_of objects.now)) × (calls.at < 9223372036854775808) × (length names.now < 65536) }
    ensures { (low : ℕ → ℕ) → Lows (words_of objects.now) sites.now lowest.now uses low
        → result ≡ close.aimed low (places_of (words_of objects.now) names.now calls) mark }
{
    if mark != 0 {
        return low_of(objects, sites, lowest, uses, usize::from(mark - 1));
    }
    if calls.left == 0 {
        return 0;
    }
    linker::place_of(objects, names, calls.at) as u16
}

// The names behind the first.
fn next_names(objects: &[u8], calls: Names) -> Names
    requires { texts_end (words_of objects.now) calls.at calls.left < 9223372036854775808 }
    ensures { Behind (words_of objects.now) calls result }
{
    if calls.left == 0 {
        return calls;
    }
    Names {
        at: calls.at + NAME_BYTES + usize::from(machine::word(objects, calls.at + NAME_SIZE)),
        left: calls.left - 1,
    }
}

// The next cell, x.
fn turn(
    objects: &[u8],
    names: &[usize],
    sites: &[usize],
    lowest: &[u16],
    uses: Uses,
    spot: Spot,
    x: u16,
) -> Spot
    requires { (uses.collected ≤ length sites.now) × (uses.collected ≤ length lowest.now) × (uses.at ≤ length (words_of objects.now))
        × (texts_end (words_of objects.now) spot.calls.at spot.calls.left < 9223372036854775808) × (length names.now < 65536) }
    ensures end { texts_end (words_of objects.now) result.calls.at result.calls.left ≡ texts_end (words_of objects.now) spot.calls.at spot.calls.left }
    ensures turned { (low : ℕ → ℕ) → Lows (words_of objects.now) sites.now lowest.now uses low → Turned low (words_of objects.now) names.now spot x result }
{
    if spot.left == 0 {
        return Spot {
            first: x,
            left: linker::count_behind(x),
            cell: x,
            ..spot
        };
    }
    if linker::is_call(spot.first) {
        let cell = aimed(objects, names, sites, lowest, uses, spot.calls, x);
        let calls = next_names(objects, spot.calls);
        Spot {
            left: spot.left - 1,
            calls,
            cell,
            ..spot
        }
    } else {
        Spot {
            left: spot.left - 1,
            cell: x,
            ..spot
        }
    }
}

// The marked cells of a rule, closed and appended as cells.
fn close(
    objects: &[u8],
    names: &[usize],
    sites: &[usize],
    lowest: &[u16],
    body: Body,
    cells: &mut [u16],
    from: usize,
) -> usize
    requires { (body.at + body.count ≤ length (words_of objects.now)) × (body.uses.collected ≤ length sites.now) × (body.uses.collected ≤ length lowest.now) × (body.uses.at ≤ length (words_of objects.now))
        × (texts_end (words_of objects.now) body.calls.at body.calls.left < 9223372036854775808) × (length names.now < 65536) }
    ensures bound { (result ≤ length cells.old + 1) × (length cells.new ≡ length cells.old) }
    ensures closed { (low : ℕ → ℕ) → Lows (words_of objects.now) sites.now lowest.now body.uses low
        → Appends cells.old from (close.close_cells low (places_of (words_of objects.now) names.now body.calls) (take body.count (drop body.at (words_of objects.now)))) cells.new result }
{
    let end = body.at + body.count;
    let mut n = from.min(cells.len() + 1);
    let calls = body.calls;
    let mut spot = Spot {
        first: 0,
        left: 0,
        calls,
        cell: 0,
    };
    for p in body.at..end {
        let x = machine::word(objects, p);
        spot = turn(objects, names, sites, lowest, body.uses, spot, x);
        n = resolver::put(cells, n, spot.cell);
    }
    n
}

// No rule, at the end of the words.
fn no_body(objects: &[u8], uses: Uses) -> Body
    ensures { (result.at ≡ length (words_of objects.now)) × (result.count ≡ 0) × (result.calls.at ≡ length (words_of objects.now)) × (result.calls.left ≡ 0) × (result.uses ≡ uses) }
{
    let end = total(objects);
    Body {
        at: end,
        count: 0,
        calls: Names { at: end, left: 0 },
        uses,
    }
}

// The rule at a place: behind its name and its type come the names of its calls, then its cells.
fn body_at(objects: &[u8], at: usize, uses: Uses) -> Body
    requires { at ≤ length (words_of objects.now) }
    ensures { BodyAt (words_of objects.now) at uses result }
{
    let end = total(objects);
    let Some(gives) = objects::past_name(objects, at) else {
        return no_body(objects, uses);
    };
    let Some(calls) = objects::past_option(objects, gives) else {
        return no_body(objects, uses);
    };
    if calls >= end {
        return no_body(objects, uses);
    }
    let left = number(objects, calls);
    let Some(cells) = objects::past_names(objects, calls + 1, left) else {
        return no_body(objects, uses);
    };
    if cells >= end {
        return no_body(objects, uses);
    }
    let count = number(objects, cells);
    if count > end - (cells + 1) {
        return no_body(objects, uses);
    }
    Body {
        at: cells + 1,
        count,
        calls: Names {
            at: calls + 1,
            left,
        },
        uses,
    }
}

// The rules of an object, closed and appended as cells.
fn close_object(
    objects: &[u8],
    names: &[usize],
    sites: &[usize],
    lowest: &[u16],
    group: Group,
    cells: &mut [u16],
    from: usize,
) -> usize
    requires { (group.at ≤ length (words_of objects.now)) × (group.uses.collected ≤ length sites.now) × (group.uses.collected ≤ length lowest.now) × (group.uses.at ≤ length (words_of objects.now))
        × (length names.now < 65536) }
    ensures bound { (result ≤ length cells.old + 1) × (length cells.new ≡ length cells.old) }
    ensures closed { ClosesGroup (words_of objects.now) names.now sites.now lowest.now group cells.old from cells.new result }
{
    let mut at = group.at;
    let mut n = from.min(cells.len() + 1);
    for _ in 0..group.left {
        let body = body_at(objects, at, group.uses);
        n = close(objects, names, sites, lowest, body, cells, n);
        at = body.at + body.count;
    }
    n
}

// The rules and pairs of the object at a place.
fn group_at(objects: &[u8], at: usize, collected: usize) -> Group
    requires { at < length (words_of objects.now) }
    ensures { GroupAt (words_of objects.now) at collected result }
{
    let end = total(objects);
    let size = number(objects, at + COMMON_SIZE);
    let pairs = (at + HEADER + size / 2 + size % 2).min(end);
    let count = number(objects, at + PAIRS);
    Group {
        at: objects::past_pairs(objects, pairs, count).unwrap_or(end),
        left: number(objects, at + RULES),
        uses: Uses {
            at: pairs,
            count,
            collected,
        },
    }
}

// The rules of all objects, closed and put one behind the other as cells.
pub fn close_all(
    objects: &[u8],
    names: &[usize],
    sites: &[usize],
    lowest: &[u16],
    collected: usize,
    cells: &mut [u16],
) -> usize
    requires { (collected ≤ length sites.now) × (collected ≤ length lowest.now) × (length names.now < 65536) }
    ensures bound { (result ≤ length cells.old + 1) × (length cells.new ≡ length cells.old) }
    ensures closed { ClosesAll (words_of objects.now) names.now sites.now lowest.now collected cells.old cells.new result }
{
    let end = total(objects);
    let mut at = 0;
    let mut n = 0;
    // no range: what is read says where the next stands
    while at < end {
        let group = group_at(objects, at, collected);
        n = close_object(objects, names, sites, lowest, group, cells, n);
        at = linkpairs::next_object(objects, at);
    }
    n
}

// The sort of the rule at a place: 1 for a choice rule, 0 for a procedure rule.
fn rule_sort(objects: &[u8], at: usize) -> u8
    requires { at ≤ length (words_of objects.now) }
    ensures { (v : RuleView) (k : List ℕ) → drop at (words_of objects.now) ≡ rule_words v ++ k → result ≡ sort_of (given v.gives) }
{
    let Some(gives) = objects::past_name(objects, at) else {
        return 0;
    };
    if gives >= total(objects) {
        return 0;
    }
    if number(objects, gives) == 0 { 0 } else { 1 }
}

// How many cells it has.
fn rule_size(objects: &[u8], at: usize) -> usize
    requires { at ≤ length (words_of objects.now) }
    ensures { (result < 9223372036854775808) × ((v : RuleView) (k : List ℕ) → drop at (words_of objects.now) ≡ rule_words v ++ k → result ≡ length v.cells) }
{
    let uses = Uses {
        at: 0,
        count: 0,
        collected: 0,
    };
    let end = total(objects);
    body_at(objects, at, uses).count.min(end)
}

// What is told of rule k, where there is room.
fn put_at<T: Copy>(row: &mut [T], k: usize, x: T)
    ensures { row.new ≡ slice_set row.old k x }
{
    if k < row.len() {
        row[k] = x;
    }
}

// Where the cells of each rule begin, closed or not, and its sort, for as many rules as there is room; how many rules there are.
pub fn place_rules(objects: &[u8], common: &[u8], starts: &mut [u16], sorts: &mut [u8]) -> usize
    ensures same { (length starts.new ≡ length starts.old) × (length sorts.new ≡ length sorts.old) }
    ensures placed { (vs : List View) → Viewed common.now (words_of objects.now) vs → (result ≡ length (row_from 1 vs)) × Placed (row_from 1 vs) result starts.new sorts.new }
{
    let end = total(objects);
    let mut cursor = linkchecks::first_rule(objects, common);
    let mut k = 0;
    let mut start = 0;
    // no range: what is read says where the next stands
    while cursor.at < end {
        let sort = rule_sort(objects, cursor.at);
        put_at(sorts, k, sort);
        put_at(starts, k, start as u16);
        start = (start + rule_size(objects, cursor.at)).min(LAST_START);
        cursor = linkchecks::next_rule(objects, common, cursor);
        k += 1;
    }
    k
}

// The answer for the program whose cells stand in the buffers, as the processor has it; `size` is the place where 20 is shown. The spare room is written over.
pub fn conclude(
    size: usize,
    cells: &[u16],
    starts: &[u16],
    sorts: &[u8],
    made: Made,
    spare: &mut [u16],
    table: &mut [u8],
) -> Answer
    requires { (4224 ≤ length spare.old) × IsReady cells.now starts.now sorts.now made.rules made.count }
    ensures { Concludes size cells.now starts.now sorts.now made.rules made.count table.old table.new result }
{
    let b = Resolved {
        cells: made.count,
        rules: made.rules,
        written: 0,
        declared: 0,
        first: 0,
        body: 0,
    };
    let a = translator::finish(size, cells, starts, sorts, b, spare, table);
    if !a.finishing {
        return a;
    }
    let mut places = [0usize; base::RULES];
    sizes::locate(cells, sorts, made.rules, &mut places);
    let end = 2 * a.words;
    let f = translator::figure_of(&table[..end], &places[..made.rules]);
    translator::with_figure(a, f)
}
