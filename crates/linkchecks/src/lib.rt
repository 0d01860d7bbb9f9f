// The checks of linking over the words of objects: the count of objects, then 5, 49, 50 and 9. Words handed in are objects already (`objects` tells 40).
#![tactic(auto)]

ghost use Rattle.std.specs.Prelude.{◌&&◌, List, [], ◌∷◌, ◌++◌, ◌≡◌, ℕ, suc, ◌/◌, ◌+◌, ◌<◌, ◌≤◌, IfSome, unwrap_or, ltb, length, get_or, drop};
ghost use Rattle.base.specs.Common.{same};
ghost use Rattle.machine.specs.Bytes.{words_of};
ghost use Rattle.names.specs.Known.{Names};
ghost use Rattle.objects.specs.Places.{NameAt, HeadsAt};
ghost use Rattle.objects.specs.Take.{took, times};
ghost use Rattle.objects.specs.View.{Name, RuleView, View, name_words, rule_words, a_name};
ghost use Rattle.parts.specs.Form.{AreObjects, last_length};
ghost use Rattle.parts.specs.Link.{rules_of, first_typed, listed_type, unlike_in, twice_in, past_limit_in};
ghost use Rattle.syntax.specs.Texts.{Head, Common};
ghost use Rattle.linkchecks.specs.Checks.{IsAt, Finds, Shows, name_at};
ghost use Rattle.linkchecks.specs.Row.{Item, row_from, last_size, first_shown, is_named_below, type_agrees, line_of, open_name, unlike_rule};
ghost use Rattle.linkchecks.specs.Walk.{Viewed, Before, Stands};

use objects::{
    HEAD_NUMBERS, is_part, number, past_name, past_option, past_pairs, past_rule, same_names, total,
};

// The words of an object before the common part, and the places among them: the size of its part, the numbers of its rules and of its pairs.
const HEADER: usize = 7;

const PART_SIZE: usize = 4;

const RULES: usize = 5;

const PAIRS: usize = 6;

// The length of a name, behind where it starts.
const NAME_SIZE: usize = 1;

// The numbers of a line of the list behind where its name starts: that name's length, where its type's name starts, and its length.
const HEAD_SIZE: usize = 1;

const HEAD_TYPE: usize = 2;

const HEAD_TYPE_SIZE: usize = 3;

// A place between the rules of objects, `at`: the object's number from 1 on, the size of its part, how many of its rules are left. At the end of the words
// no rule is left.
#[derive(Clone, Copy, Debug, PartialEq, Eq)]
pub struct Cursor {
    pub text: usize,
    pub size: usize,
    pub at: usize,
    pub left: usize,
}

// What a check shows: a part of a text.
#[derive(Clone, Copy, Debug, PartialEq, Eq)]
pub struct Found {
    pub text: usize,
    pub start: usize,
    pub len: usize,
}

// From the start of an object to its first rule.
fn enter(objects: &[u8], common: &[u8], cursor: Cursor) -> Cursor
    requires { (cursor.at ≤ length (words_of objects.now)) × (cursor.text ≤ cursor.at) }
    ensures { (cursor.at ≤ result.at) × (result.at ≤ length (words_of objects.now)) × (result.text ≤ result.at)
        × ((vs left : List View) → Before common.now (words_of objects.now) vs cursor left → Stands common.now (words_of objects.now) vs result (row_from (suc cursor.text) left)) }
{
    let end = total(objects);
    let over = Cursor {
        at: end,
        left: 0,
        ..cursor
    };
    let pairs = cursor.at + HEADER + common.len() / 2 + common.len() % 2;
    if pairs > end {
        return over;
    }
    let Some(rules) = past_pairs(objects, pairs, number(objects, cursor.at + PAIRS)) else {
        return over;
    };
    Cursor {
        text: cursor.text + 1,
        size: number(objects, cursor.at + PART_SIZE),
        at: rules,
        left: number(objects, cursor.at + RULES),
    }
}

// The first rule of all.
pub fn first_rule(objects: &[u8], common: &[u8]) -> Cursor
    ensures { (result.at ≤ length (words_of objects.now)) × (result.text ≤ result.at)
        × ((vs : List View) → Viewed common.now (words_of objects.now) vs → Stands common.now (words_of objects.now) vs result (row_from 1 vs)) }
{
    enter(
        objects,
        common,
        Cursor {
            text: 0,
            size: 0,
            at: 0,
            left: 0,
        },
    )
}

// The rule behind the one at the cursor.
pub fn next_rule(objects: &[u8], common: &[u8], cursor: Cursor) -> Cursor
    requires { (cursor.at < length (words_of objects.now)) × (cursor.text ≤ cursor.at) }
    ensures { (cursor.at < result.at) × (result.at ≤ length (words_of objects.now)) × (result.text ≤ result.at)
        × ((vs : List View) (x : Item) (row : List Item) → Stands common.now (words_of objects.now) vs cursor (x ∷ row) → Stands common.now (words_of objects.now) vs result row) }
{
    let end = total(objects);
    let over = Cursor {
        at: end,
        left: 0,
        ..cursor
    };
    let Some(at) = past_rule(objects, cursor.at) else {
        return over;
    };
    if at == end {
        return over;
    }
    if cursor.left > 1 {
        return Cursor {
            at,
            left: cursor.left - 1,
            ..cursor
        };
    }
    enter(
        objects,
        common,
        Cursor {
            at,
            left: 0,
            ..cursor
        },
    )
}

// How many objects there are and how many rules in all, and the size of the last object's part.
#[derive(Clone, Copy, Debug, PartialEq, Eq)]
struct Totals {
    objects: usize,
    rules: usize,
    size: usize,
}

fn count_all(objects: &[u8], common: &[u8]) -> Totals
    ensures { (vs : List View) → Viewed common.now (words_of objects.now) vs
        → (result.objects ≡ length vs) × (result.rules ≡ length (row_from 1 vs)) × (result.size ≡ last_size 0 vs) }
{
    let end = total(objects);
    let mut cursor = first_rule(objects, common);
    let mut rules = 0;
    // no range: a rule says where the next stands
    while cursor.at < end {
        cursor = next_rule(objects, common, cursor);
        rules += 1;
    }
    Totals {
        objects: cursor.text,
        rules,
        size: cursor.size,
    }
}

pub fn count_objects(objects: &[u8], common: &[u8]) -> usize
    ensures { (c : Common) (n : Names) (h : AreObjects common.now c n (words_of objects.now)) → result ≡ length h.objects }
{
    count_all(objects, common).objects
}

// The bytes of the last object's part.
pub fn last_size(objects: &[u8], common: &[u8]) -> usize
    ensures { (c : Common) (n : Names) (h : AreObjects common.now c n (words_of objects.now)) → result ≡ last_length h.lengths }
{
    count_all(objects, common).size
}

pub fn count_rules(objects: &[u8], common: &[u8]) -> usize
    ensures { (c : Common) (n : Names) (h : AreObjects common.now c n (words_of objects.now)) → result ≡ length (rules_of h.objects) }
{
    count_all(objects, common).rules
}

// The name at a place.
fn found_at(objects: &[u8], text: usize, p: usize) -> Found
    requires { p < 9223372036854775808 }
    ensures { (n : Name) (k : List ℕ) → drop p (words_of objects.now) ≡ name_words n ++ k → IsAt text n.start (length n.text) result }
{
    Found {
        text,
        start: number(objects, p),
        len: number(objects, p + NAME_SIZE),
    }
}

// 5: the first rule of all has a type.
pub fn first_typed(objects: &[u8], common: &[u8]) -> Option<Found>
    ensures { (c : Common) (n : Names) (h : AreObjects common.now c n (words_of objects.now)) → Finds (first_typed (rules_of h.objects)) result }
{
    let cursor = first_rule(objects, common);
    let gives = past_name(objects, cursor.at)?;
    if gives == total(objects) || number(objects, gives) == 0 {
        return None;
    }
    Some(found_at(objects, 1, cursor.at))
}

// The rule at the cursor is of a text before the text `below`, and has the name at p.
fn has_name(objects: &[u8], cursor: Cursor, below: usize, p: usize) -> bool
    requires { (cursor.at ≤ length (words_of objects.now)) × (p ≤ length (words_of objects.now)) }
    ensures { (n m : Name) → NameAt (words_of objects.now) cursor.at n → NameAt (words_of objects.now) p m → result ≡ (ltb cursor.text below && same m.text n.text) }
{
    cursor.text < below && same_names(objects, p, cursor.at)
}

// A rule of a text before the text `below` has the name at p.
fn is_named(objects: &[u8], common: &[u8], below: usize, p: usize) -> bool
    requires { p ≤ length (words_of objects.now) }
    ensures { (vs : List View) (m : Name) → Viewed common.now (words_of objects.now) vs → NameAt (words_of objects.now) p m → result ≡ is_named_below below m.text (row_from 1 vs) }
{
    let end = total(objects);
    let mut cursor = first_rule(objects, common);
    // no range: a rule says where the next stands
    while cursor.at < end {
        if has_name(objects, cursor, below, p) {
            return true;
        }
        cursor = next_rule(objects, common, cursor);
    }
    false
}

// The line of the list with the name at p.
fn find_line(objects: &[u8], p: usize, common: &[u8], heads: &[u16]) -> Option<usize>
    requires { p ≤ length (words_of objects.now) }
    ensures within { IfSome result (λ i. i < length heads.now / 4) }
    ensures is { (hs : List Head) (n : Name) → HeadsAt common.now heads.now hs → NameAt (words_of objects.now) p n → unwrap_or result (length heads.now / 4) ≡ line_of n.text hs }
{
    for i in 0..heads.len() / HEAD_NUMBERS {
        let start = usize::from(heads[HEAD_NUMBERS * i]);
        let size = usize::from(heads[HEAD_NUMBERS * i + HEAD_SIZE]);
        if is_part(objects, p, common, start, size) {
            return Some(i);
        }
    }
    None
}

// The rule at a place is of the sort and type that the list says.
fn is_alike(objects: &[u8], at: usize, common: &[u8], heads: &[u16]) -> bool
    requires { at ≤ length (words_of objects.now) }
    ensures { (hs : List Head) (v : RuleView) (k : List ℕ) → HeadsAt common.now heads.now hs → drop at (words_of objects.now) ≡ rule_words v ++ k → result ≡ type_agrees v.gives (listed_type v.name.text hs) }
{
    let Some(gives) = past_name(objects, at) else {
        return false;
    };
    if gives == total(objects) {
        return false;
    }
    let listed = find_line(objects, at, common, heads);
    if number(objects, gives) == 0 {
        return listed.is_none();
    }
    let Some(line) = listed else {
        return false;
    };
    let start = usize::from(heads[HEAD_NUMBERS * line + HEAD_TYPE]);
    let size = usize::from(heads[HEAD_NUMBERS * line + HEAD_TYPE_SIZE]);
    is_part(objects, gives + 1, common, start, size)
}

// The first of n names from a place on that no rule has.
fn open_name(objects: &[u8], common: &[u8], text: usize, at: usize, n: usize) -> Option<Found>
    requires { at ≤ length (words_of objects.now) }
    ensures { (vs : List View) (ns : List Name) (rest : List ℕ) → Viewed common.now (words_of objects.now) vs → times n a_name (drop at (words_of objects.now)) ≡ took ns rest
        → Shows (first_shown (open_name (length (words_of objects.now) + 1) (row_from 1 vs) text) ns) result }
{
    let end = total(objects);
    let mut q = at;
    for _ in 0..n {
        if !is_named(objects, common, end + 1, q) {
            return Some(found_at(objects, text, q));
        }
        q = past_name(objects, q)?;
    }
    None
}

// The first call of the rule at a place that calls no rule.
fn open_call(objects: &[u8], common: &[u8], text: usize, at: usize) -> Option<Found>
    requires { at ≤ length (words_of objects.now) }
    ensures { (vs : List View) (v : RuleView) (k : List ℕ) → Viewed common.now (words_of objects.now) vs → drop at (words_of objects.now) ≡ rule_words v ++ k
        → Shows (first_shown (open_name (length (words_of objects.now) + 1) (row_from 1 vs) text) v.calls) result }
{
    let gives = past_name(objects, at)?;
    let calls = past_option(objects, gives)?;
    if calls == total(objects) {
        return None;
    }
    open_name(objects, common, text, calls + 1, number(objects, calls))
}

// The rule at the cursor, where it is not as the list says, or its first open call.
fn unlike_rule(objects: &[u8], common: &[u8], heads: &[u16], cursor: Cursor) -> Option<Found>
    requires { (cursor.at ≤ length (words_of objects.now)) × (cursor.at < 9223372036854775808) }
    ensures { (hs : List Head) (vs : List View) (x : Item) (row : List Item) → HeadsAt common.now heads.now hs → Viewed common.now (words_of objects.now) vs
        → Stands common.now (words_of objects.now) vs cursor (x ∷ row) → Shows (unlike_rule (length (words_of objects.now) + 1) (row_from 1 vs) hs x) result }
{
    if !is_alike(objects, cursor.at, common, heads) {
        return Some(found_at(objects, cursor.text, cursor.at));
    }
    open_call(objects, common, cursor.text, cursor.at)
}

// 49: a rule of another sort or type than the list says, or a called rule in no part.
pub fn find_unlike(objects: &[u8], common: &[u8], heads: &[u16]) -> Option<Found>
    ensures { (c : Common) (n : Names) (h : AreObjects common.now c n (words_of objects.now)) → HeadsAt common.now heads.now c.listed
        → Finds (unlike_in c.listed (rules_of h.objects) 1 h.objects) result }
{
    let end = total(objects);
    let mut cursor = first_rule(objects, common);
    // no range: a rule says where the next stands
    while cursor.at < end {
        let found = unlike_rule(objects, common, heads, cursor);
        if found.is_some() {
            return found;
        }
        cursor = next_rule(objects, common, cursor);
    }
    None
}

// 50: a rule whose name a part before has.
pub fn find_twice(objects: &[u8], common: &[u8]) -> Option<Found>
    ensures { (c : Common) (n : Names) (h : AreObjects common.now c n (words_of objects.now)) → Finds (twice_in [] 1 h.objects) result }
{
    let end = total(objects);
    let mut cursor = first_rule(objects, common);
    // no range: a rule says where the next stands
    while cursor.at < end {
        if is_named(objects, common, cursor.text, cursor.at) {
            return Some(found_at(objects, cursor.text, cursor.at));
        }
        cursor = next_rule(objects, common, cursor);
    }
    None
}

// 9: the first rule past so many.
pub fn past_limit(objects: &[u8], common: &[u8], left: usize) -> Option<Found>
    ensures { (c : Common) (n : Names) (h : AreObjects common.now c n (words_of objects.now)) → Finds (past_limit_in left 1 h.objects) result }
{
    let end = total(objects);
    let mut cursor = first_rule(objects, common);
    let mut i = 0;
    // no range: a rule says where the next stands
    while cursor.at < end {
        if i == left {
            return Some(found_at(objects, cursor.text, cursor.at));
        }
        cursor = next_rule(objects, common, cursor);
        i += 1;
    }
    None
}

// p as the number at i, where there is room.
fn put_place(names: &mut [usize], i: usize, p: usize)
    ensures { (length names.new ≡ length names.old) × (i < length names.old → get_or names.new i 0 ≡ p)
        × ((k : ℕ) → (k ≡ i → ⊥) → get_or names.new k 0 ≡ get_or names.old k 0) }
{
    if i < names.len() {
        names[i] = p;
    }
}

// Where the names of the rules stand, of as many as there is room for; how many rules there are in all.
pub fn name_places(objects: &[u8], common: &[u8], names: &mut [usize]) -> usize
    ensures { (c : Common) (n : Names) (h : AreObjects common.now c n (words_of objects.now)) → (result ≡ length (rules_of h.objects))
        × ((k : ℕ) → k < result → k < length names.new → NameAt (words_of objects.now) (get_or names.new k 0) (name_at (rules_of h.objects) k)) }
{
    let end = total(objects);
    let mut cursor = first_rule(objects, common);
    let mut i = 0;
    // no range: a rule says where the next stands
    while cursor.at < end {
        put_place(names, i, cursor.at);
        cursor = next_rule(objects, common, cursor);
        i += 1;
    }
    i
}
