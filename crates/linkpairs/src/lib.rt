// The pairs of section and operand rule over all objects that are linked, each once, and the rules made for them.
#![tactic(auto)]

ghost use Rattle.std.specs.Prelude.{List, ◌≡◌, ℕ, ◌+◌, ◌*◌, ◌<◌, ◌≤◌, length, IfSome, unwrap_or};
ghost use Rattle.linkpairs.specs.Gather.{index_of};
ghost use Rattle.linkpairs.specs.Places.{SitesFound, SiteIs, RulesMade};
ghost use Rattle.linkpairs.specs.Standing.{PairAt, SectionName, OperandName, PairsFrom, ObjectEnds, EntriesOf, LevelsOf, Stand, Held, moved_to, PairTaken, PairsTaken, PastLimit, Collected};
ghost use Rattle.machine.specs.Bytes.{words_of};
ghost use Rattle.names.specs.Known.{Names};
ghost use Rattle.names.specs.Uses.{Use, same_pair, lowest_of};
ghost use Rattle.symbols.specs.Index.{Kept};

use levels::{Made, Site};
use maker::Levels;
use objects::{find_section, number, past_name, past_pair, same_names, total};
use symbols::NONE;

// The words of an object: behind its mark, in two words, how many stand behind these three; of those the first is the length of the common part,
// the fourth the number of pairs; behind four come the bytes of the common part, two a word, then the pairs.
const SIZE_HIGH: usize = 1;

const SIZE_LOW: usize = 2;

const BODY: usize = 3;

const PAIR_COUNT: usize = 6;

const COMMON: usize = 7;

// The words of a pair: where its `^` stands, its length, its section's name, its operand rule's name.
const SIGN_SIZE: usize = 1;

const SECTION: usize = 2;

// The numbers of a pair in the row of places.
const PLACES: usize = 2;

// How many declarations the rows hold, how many names there are beside the rules', how many rules the objects have.
#[derive(Clone, Copy, Debug, PartialEq, Eq)]
pub struct Scope {
    pub n: usize,
    pub others: usize,
    pub own: usize,
}

// Where collecting stands: the next pair, how many pairs of its object are left, how many are collected, how many rules there are with those made for
// them; 0, or 9 where the rules of the next pair pass a limit.
#[derive(Clone, Copy, Debug, PartialEq, Eq)]
pub struct Spot {
    pub at: usize,
    pub left: usize,
    pub count: usize,
    pub own: usize,
    pub fault: u16,
}

// 0 and how many pairs there are; or 9, the text with the `^` whose rules pass a limit (1 for the first object's), where it stands there, its length.
#[derive(Clone, Copy, Debug, PartialEq, Eq)]
pub struct Pairs {
    pub fault: u16,
    pub text: usize,
    pub start: usize,
    pub len: usize,
    pub count: usize,
}

// How many declarations the rows hold, how many pairs are collected, how many cells and rules there are before those made.
#[derive(Clone, Copy, Debug, PartialEq, Eq)]
pub struct Work {
    pub n: usize,
    pub count: usize,
    pub cells: usize,
    pub rules: usize,
}

// Pairs in the words

// The place of the section's name of the pair at p; the end of the words where there is none.
fn section_at(objects: &[u8], p: usize) -> usize
    ensures { SectionName (words_of objects.now) p result }
{
    p.saturating_add(SECTION).min(total(objects))
}

// The same of the operand rule's name.
fn operand_at(objects: &[u8], p: usize) -> usize
    ensures { OperandName (words_of objects.now) p result }
{
    past_name(objects, section_at(objects, p)).unwrap_or(total(objects))
}

// Whether the pairs at two places are the same.
fn same_pair(objects: &[u8], p: usize, q: usize) -> bool
    ensures { (u v : Use) → PairAt (words_of objects.now) p u → PairAt (words_of objects.now) q v → result ≡ same_pair u v }
{
    same_names(objects, section_at(objects, p), section_at(objects, q))
        && same_names(objects, operand_at(objects, p), operand_at(objects, q))
}

// The number of the pair at p among those collected, if it is one of them.
fn look(objects: &[u8], sites: &[usize], count: usize, p: usize) -> Option<usize>
    requires { count ≤ length sites.now }
    ensures low { IfSome result (λ i. i < count) }
    ensures is { (us : List Use) (u : Use) → count ≡ length us → Stand (words_of objects.now) sites.now 0 us → PairAt (words_of objects.now) p u → unwrap_or result count ≡ index_of u us }
{
    for (i, site) in sites[..count].iter().enumerate() {
        if same_pair(objects, p, *site) {
            return Some(i);
        }
    }
    None
}

// The number of the lowest rule of the pair at p, which is collected.
pub fn lowest_at(objects: &[u8], sites: &[usize], lowest: &[u16], count: usize, p: usize) -> u16
    requires { (count ≤ length sites.now) × (count ≤ length lowest.now) }
    ensures { (names : Names) (own after : ℕ) (us : List Use) (u : Use) → Held (words_of objects.now) sites.now lowest.now names own count after us → PairAt (words_of objects.now) p u → result ≡ lowest_of names u own us }
{
    match look(objects, sites, count, p) {
        Some(i) => lowest[i],
        None => 0,
    }
}

// Objects in the words

// The place of the first pair of the object at a place.
fn first_pair(objects: &[u8], at: usize) -> usize
    requires { at ≤ length (words_of objects.now) }
    ensures { PairsFrom (words_of objects.now) at result }
{
    let end = total(objects);
    let size = number(objects, at + BODY);
    let before = COMMON + size / 2 + size % 2;
    (at + before).min(end)
}

// The place behind the object at a place.
pub fn next_object(objects: &[u8], at: usize) -> usize
    requires { at < length (words_of objects.now) }
    ensures { ObjectEnds (words_of objects.now) at result }
{
    let end = total(objects);
    let size = BODY + 65536 * number(objects, at + SIZE_HIGH) + number(objects, at + SIZE_LOW);
    (at + size).min(end)
}

// Sections

// Where the entries of the section of the pair at p stand in the text.
fn entries_of(objects: &[u8], p: usize, text: &[u8], rows: &[u16], n: usize) -> usize
    requires { n ≤ 512 }
    ensures { EntriesOf text.now rows.now n (words_of objects.now) p result }
{
    let row = find_section(objects, section_at(objects, p), text, rows, n);
    if row < NONE {
        maker::entries_at(text, rows, row)
    } else {
        text.len()
    }
}

// Their levels.
fn levels_of(objects: &[u8], p: usize, text: &[u8], rows: &[u16], n: usize) -> Levels
    requires { (n ≤ 512) × (length text.now ≤ 65535) }
    ensures { LevelsOf text.now rows.now n (words_of objects.now) p result }
{
    let at = entries_of(objects, p, text, rows, n);
    maker::section_levels(text, at)
}

// Collecting

fn with_fault(s: Spot) -> Spot
    ensures { (result.at ≡ s.at) × (result.left ≡ s.left) × (result.count ≡ s.count) × (result.own ≡ s.own) × (result.fault ≡ 9) }
{
    Spot {
        fault: base::OVER_LIMIT,
        ..s
    }
}

// The next pair stands at `at`, and with it `left` pairs of its object are left.
fn moved_to(s: Spot, at: usize, left: usize) -> Spot
    ensures { result ≡ moved_to s at left }
{
    Spot {
        at,
        left,
        fault: 0,
        ..s
    }
}

// The pair where s stands is put behind those collected, if it is new.
fn take_pair(
    objects: &[u8],
    text: &[u8],
    rows: &[u16],
    sites: &mut [usize],
    lowest: &mut [u16],
    scope: Scope,
    s: Spot,
) -> Spot
    requires { (length text.now ≤ 65535) × (scope.n ≤ 512) × (scope.others ≤ 512) × (length sites.old ≡ 128) × (length lowest.old ≡ 128) × (s.count ≤ s.own) × (s.own ≤ 128) }
    ensures { PairTaken text.now rows.now scope (words_of objects.now) sites.old lowest.old s sites.new lowest.new result }
{
    let k = s.count;
    if look(objects, sites, k, s.at).is_some() {
        return s;
    }
    let l = levels_of(objects, s.at, text, rows, scope.n);
    if l.count == 0 || maker::is_over(scope.others, s.own, l) {
        return with_fault(s);
    }
    sites[k] = s.at;
    lowest[k] = s.own as u16;
    Spot {
        count: k + 1,
        own: s.own + l.count,
        fault: 0,
        ..s
    }
}

// The pairs of an object that are left, from where s stands on.
fn take_pairs(
    objects: &[u8],
    text: &[u8],
    rows: &[u16],
    sites: &mut [usize],
    lowest: &mut [u16],
    scope: Scope,
    s: Spot,
) -> Spot
    requires { (length text.now ≤ 65535) × (scope.n ≤ 512) × (scope.others ≤ 512) × (length sites.old ≡ 128) × (length lowest.old ≡ 128) × (s.count ≤ s.own) × (s.own ≤ 128) × (s.at ≤ length (words_of objects.now)) × (s.fault ≡ 0) }
    ensures { PairsTaken text.now rows.now scope (words_of objects.now) sites.old lowest.old s sites.new lowest.new result }
{
    let mut t = s;
    // no range: what is read says where the next stands
    while t.left > 0 {
        t = take_pair(objects, text, rows, sites, lowest, scope, t);
        if t.fault != 0 {
            return t;
        }
        let Some(next) = past_pair(objects, t.at) else {
            return t;
        };
        t = moved_to(t, next, t.left - 1);
    }
    t
}

// The fault of the pair where s stands, which is of the object of text i.
fn past_limit(objects: &[u8], s: Spot, i: usize) -> Pairs
    ensures { PastLimit (words_of objects.now) s i result }
{
    let end = total(objects);
    let at = s.at.min(end);
    Pairs {
        fault: base::OVER_LIMIT,
        text: i,
        start: number(objects, at),
        len: number(objects, at + SIGN_SIZE),
        count: s.count,
    }
}

// The first use of each pair over all objects: its place in the words and the number of its lowest rule; or the first whose rules pass a limit.
pub fn collect(
    objects: &[u8],
    text: &[u8],
    rows: &[u16],
    sites: &mut [usize],
    lowest: &mut [u16],
    scope: Scope,
) -> Pairs
    requires { (length text.now ≤ 65535) × (scope.n ≤ 512) × (scope.others ≤ 512) × (scope.own ≤ 128) × (length sites.old ≡ 128) × (length lowest.old ≡ 128) }
    ensures { Collected text.now rows.now scope (words_of objects.now) sites.new lowest.new result }
{
    let end = total(objects);
    let mut at = 0;
    let mut i = 1;
    let mut s = Spot {
        at: 0,
        left: 0,
        count: 0,
        own: scope.own,
        fault: 0,
    };
    // no range: what is read says where the next stands
    while at < end {
        s = moved_to(s, first_pair(objects, at), number(objects, at + PAIR_COUNT));
        s = take_pairs(objects, text, rows, sites, lowest, scope, s);
        if s.fault != 0 {
            return past_limit(objects, s, i);
        }
        at = next_object(objects, at);
        i += 1;
    }
    Pairs {
        fault: 0,
        text: 0,
        start: 0,
        len: 0,
        count: s.count,
    }
}

// Making

// Of each collected pair, two numbers: where its section's entries stand in the text, and the number of its operand rule, the rules' names standing at
// `heads`.
pub fn find_sites(
    objects: &[u8],
    heads: &[usize],
    text: &[u8],
    rows: &[u16],
    sites: &[usize],
    places: &mut [u16],
    work: Work,
)
    requires { (length text.now ≤ 65535) × (work.n ≤ 512) × (work.count ≤ length sites.now) × (2 * work.count ≤ length places.old) × (length heads.now < 65536) }
    ensures { SitesFound text.now rows.now work.n (words_of objects.now) heads.now sites.now work.count places.new }
{
    for j in 0..work.count {
        let p = sites[j];
        let at = entries_of(objects, p, text, rows, work.n);
        let rule = linker::place_of(objects, heads, operand_at(objects, p));
        places[PLACES * j] = at as u16;
        places[PLACES * j + 1] = rule as u16;
    }
}

// The site of the j-th pair, behind what is made.
fn site_at(text: &[u8], places: &[u16], j: usize, made: Made) -> Site
    requires { j < 65536 }
    ensures { SiteIs text.now places.now j made result }
{
    let at = base::number(places, PLACES * j).min(text.len());
    let operand = base::number(places, PLACES * j + 1);
    Site {
        at,
        operand,
        own: made.rules,
        count: made.count,
    }
}

// The rules made for the pairs with these places, behind those of the objects: their cells, where each begins, and its sort.
pub fn make(
    text: &[u8],
    rows: &[u16],
    places: &[u16],
    cells: &mut [u16],
    starts: &mut [u16],
    sorts: &mut [u8],
    work: Work,
) -> Made
    requires { (length text.now ≤ 65535) × Kept text.now rows.now work.n × (work.count ≤ 128) × (work.rules < 65536) × (length cells.old ≤ 60000) × (work.cells ≤ length cells.old + 1) × (length starts.old ≡ 128) × (length sorts.old ≡ 128) }
    ensures { RulesMade text.now rows.now work.n places.now 0 work.count work.rules cells.old work.cells starts.old sorts.old cells.new starts.new sorts.new result }
{
    let mut made = Made {
        count: work.cells,
        rules: work.rules,
    };
    for j in 0..work.count {
        let q = site_at(text, places, j, made);
        made = levels::make_levels(text, rows, work.n, q, cells, starts, sorts);
    }
    made
}
