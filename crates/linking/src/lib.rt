// Linking: objects of one common part to the table of all their rules.
#![tactic(auto)]

ghost use Rattle.std.specs.Prelude.{◌||◌, ◌≡◌, ◌+◌, ◌<◌, ◌≤◌, eqb, ltb, length};
ghost use Rattle.base.specs.Faults.{fault_number};
ghost use Rattle.linking.specs.Answered.{Leaves, Links};
ghost use Rattle.linking.specs.Linking.{IsRead, Named, Declared, Finds, Sound, SoMany, LinksSound, IsClosed, LinksClosed};
ghost use Rattle.machine.specs.Bytes.{words_of};
ghost use Rattle.names.specs.Known.{Names};
ghost use Rattle.objects.specs.Places.{HeadsAt};
ghost use Rattle.parts.specs.Form.{AreObjects};
ghost use Rattle.parts.specs.Link.{refused};
ghost use Rattle.syntax.specs.Texts.{Common};

use base::Refusal;
use linkchecks::Found;
use linkpairs::{Scope, Work};
use translator::Answer;

// The most parts that are linked.
const PARTS: usize = 16;

// A called rule in no part, or a rule of another sort or type than the common part says; a rule name in two parts.
const UNLIKE: u16 = 49;

const TWICE: u16 = 50;

// Numbers for the lines of a list.
const HEADS: usize = partnames::HEAD * base::RULES;

// Two numbers for each pair of section and operand rule.
const PLACES: usize = 2 * base::RULES;

// As the processor's answer; `text` is the text at fault, 0 the common part, 1 the first part.
#[derive(Clone, Copy, Debug, PartialEq, Eq)]
pub struct Linked {
    pub number: u16,
    pub text: usize,
    pub start: usize,
    pub len: usize,
    pub words: usize,
    pub finishing: bool,
    pub figure: u64,
    pub check: u16,
}

// What a common part declares: how many rows, how many of them are its sections', and how many names these leave for rules.
#[derive(Clone, Copy, Debug, PartialEq, Eq)]
pub struct Shared {
    pub n: usize,
    pub others: usize,
    pub room: usize,
}

// A number and the part of a text that shows it.
#[derive(Clone, Copy, Debug, PartialEq, Eq)]
pub struct Fault {
    pub number: u16,
    pub text: usize,
    pub start: usize,
    pub len: usize,
}

// An answer of the processor, in this text.
fn in_text(a: Answer, text: usize) -> Linked
    ensures { result ≡ record { number = a.number; text = text; start = a.start; len = a.len; words = a.words; finishing = a.finishing; figure = a.figure; check = a.check } }
{
    Linked {
        number: a.number,
        text,
        start: a.start,
        len: a.len,
        words: a.words,
        finishing: a.finishing,
        figure: a.figure,
        check: a.check,
    }
}

// A refusal: every lent word zero.
fn refuse(table: &mut [u8], fault: Fault) -> Linked
    ensures { Leaves (refused fault.number fault.text (record { start = fault.start; size = fault.len })) table.old table.new result }
{
    let a = translator::refuse(table, fault.number, fault.start, fault.len);
    in_text(a, fault.text)
}

// A refusal in the common part.
fn in_common(e: Refusal) -> Fault
    ensures { result ≡ record { number = fault_number e.fault; text = 0; start = e.at; len = e.len } }
{
    Fault {
        number: u16::from(e.fault),
        text: 0,
        start: e.at,
        len: e.len,
    }
}

fn fault_of(number: u16, found: Found) -> Fault
    ensures { (result.number ≡ number) × (result.text ≡ found.text) × (result.start ≡ found.start) × (result.len ≡ found.len) }
{
    Fault {
        number,
        text: found.text,
        start: found.start,
        len: found.len,
    }
}

// No part, or more than are linked.
fn is_off(count: usize) -> bool
    ensures { result ≡ (eqb count 0 || ltb 16 count) }
{
    count == 0 || PARTS < count
}

// The first fault of the parts together, if there is one: their number, 5, 49, 50, the number of their rules.
fn first_fault(objects: &[u8], common: &[u8], heads: &[u16], room: usize) -> Option<Fault>
    ensures { (c : Common) (n : Names) (h : AreObjects common.now c n (words_of objects.now)) → HeadsAt common.now heads.now c.listed → room ≡ c.left
        → Finds common.now c h.objects result }
{
    let count = linkchecks::count_objects(objects, common);
    if is_off(count) {
        return Some(Fault {
            number: base::OVER_LIMIT,
            text: 0,
            start: common.len(),
            len: 0,
        });
    }
    if let Some(found) = linkchecks::first_typed(objects, common) {
        return Some(fault_of(base::NOT_WANTED, found));
    }
    if let Some(found) = linkchecks::find_unlike(objects, common, heads) {
        return Some(fault_of(UNLIKE, found));
    }
    if let Some(found) = linkchecks::find_twice(objects, common) {
        return Some(fault_of(TWICE, found));
    }
    if let Some(found) = linkchecks::past_limit(objects, common, room.min(base::RULES)) {
        return Some(fault_of(base::OVER_LIMIT, found));
    }
    None
}

// The answer for the rules of the objects, whose cells stand in the buffer, and those made for the pairs with these places.
fn link_closed(
    objects: &[u8],
    common: &[u8],
    rows: &mut [u16],
    places: &[u16],
    cells: &mut [u16],
    table: &mut [u8],
    work: Work,
) -> Linked
    requires { (length rows.old ≡ 6017) × IsClosed common.now rows.old objects.now places.now cells.old work }
    ensures { LinksClosed common.now rows.old objects.now places.now cells.old work table.old table.new result }
{
    let mut starts = [0u16; base::RULES];
    let mut sorts = [0u8; base::RULES];
    linkage::place_rules(objects, common, &mut starts, &mut sorts);
    let made = linkpairs::make(common, rows, places, cells, &mut starts, &mut sorts, work);
    let size = linkchecks::last_size(objects, common);
    let a = linkage::conclude(size, cells, &starts, &sorts, made, rows, table);
    let text = linkchecks::count_objects(objects, common);
    if a.number == 0 {
        return in_text(a, 0);
    }
    in_text(a, text)
}

// Objects that have passed these checks; the places of their rules' names go to `names`, one each.
fn link_names(
    objects: &[u8],
    common: &[u8],
    rows: &mut [u16],
    names: &mut [usize],
    table: &mut [u8],
    shared: Shared,
) -> Linked
    requires { (length rows.old ≡ 6017) × Sound common.now rows.old objects.now shared × SoMany common.now objects.now (length names.old) }
    ensures { LinksSound common.now rows.old objects.now shared table.old table.new result }
{
    let own = linkchecks::name_places(objects, common, names);
    let mut sites = [0usize; base::RULES];
    let mut lowest = [0u16; base::RULES];
    let scope = Scope {
        n: shared.n,
        others: shared.others,
        own,
    };
    let p = linkpairs::collect(objects, common, rows, &mut sites, &mut lowest, scope);
    if p.fault != 0 {
        return refuse(
            table,
            Fault {
                number: p.fault,
                text: p.text,
                start: p.start,
                len: p.len,
            },
        );
    }
    let mut cells = [0u16; frontend::CELLS];
    let n = linkage::close_all(objects, names, &sites, &lowest, p.count, &mut cells);
    let work = Work {
        n: shared.n,
        count: p.count,
        cells: n,
        rules: own,
    };
    let mut places = [0u16; PLACES];
    linkpairs::find_sites(objects, names, common, rows, &sites, &mut places, work);
    link_closed(objects, common, rows, &places, &mut cells, table, work)
}

// The same, with room for the places.
fn link_rules(
    objects: &[u8],
    common: &[u8],
    rows: &mut [u16],
    table: &mut [u8],
    shared: Shared,
) -> Linked
    requires { (length rows.old ≡ 6017) × Sound common.now rows.old objects.now shared }
    ensures { LinksSound common.now rows.old objects.now shared table.old table.new result }
{
    let own = linkchecks::count_rules(objects, common);
    let mut names = [0usize; base::RULES];
    link_names(objects, common, rows, &mut names[..own], table, shared)
}

// Any bytes, with a common part that is in order.
fn link_objects(
    common: &[u8],
    heads: &[u16],
    rows: &mut [u16],
    objects: &[u8],
    table: &mut [u8],
    shared: Shared,
) -> Linked
    requires { (length rows.old ≡ 6017) × Declared common.now rows.old heads.now shared }
    ensures { Links common.now objects.now table.old table.new result }
{
    let o = objects::check(objects, common, heads, common, rows, shared.n);
    if !o.ok {
        return refuse(
            table,
            Fault {
                number: base::NOT_FORMED,
                text: o.good + 1,
                start: 0,
                len: 0,
            },
        );
    }
    match first_fault(objects, common, heads, shared.room) {
        Some(fault) => refuse(table, fault),
        None => link_rules(objects, common, rows, table, shared),
    }
}

// The same, before the numbers of its list are written to the heads.
fn link_named(
    common: &[u8],
    heads: &mut [u16],
    rows: &mut [u16],
    objects: &[u8],
    table: &mut [u8],
    shared: Shared,
) -> Linked
    requires { (length rows.old ≡ 6017) × Named common.now rows.old heads.old shared }
    ensures { Links common.now objects.now table.old table.new result }
{
    let lines = shared.n - shared.others;
    partnames::copy_heads(common, rows, shared.others, lines, heads);
    link_objects(common, heads, rows, objects, table, shared)
}

// A common part that is read.
fn link_common(common: &[u8], objects: &[u8], table: &mut [u8], room: usize) -> Linked
    requires { IsRead common.now room }
    ensures { Links common.now objects.now table.old table.new result }
{
    let mut rows = [0u16; frontend::ROWS];
    let d = partnames::declare(common, &mut rows);
    let lines = d.count - d.first;
    if let Err(e) = partnames::settle(common, &mut rows, d.count, d.first, lines) {
        return refuse(table, in_common(e));
    }
    let mut heads = [0u16; HEADS];
    let size = partnames::HEAD * lines;
    let shared = Shared {
        n: d.count,
        others: d.first,
        room,
    };
    link_named(
        common,
        &mut heads[..size],
        &mut rows,
        objects,
        table,
        shared,
    )
}

// The parts of these objects linked; or a number, and what is lent zeroed.
pub fn link(common: &[u8], objects: &[u8], table: &mut [u8]) -> Linked
    ensures { Links common.now objects.now table.old table.new result }
{
    match reader::check_common(common) {
        Ok(c) => link_common(common, objects, table, c.room),
        Err(e) => refuse(table, in_common(e)),
    }
}
