// Carrying a walk to new rules from C (include/sst-carry.h): two texts, and the walk as its 158 bytes.
#![tactic(auto)]

ghost use Rattle.std.specs.Prelude.{◌≡◌, length, take, drop};
ghost use Rattle.carry.specs.Carry.{carry as carrying, source_of};
ghost use Rattle.carry.specs.Texts.{answer_of, carry_texts, carry_bytes};
ghost use Rattle.sources.specs.Prepared.{Reads};
ghost use Rattle.walker.specs.View as view;
ghost use Rattle.carrying.specs.Told.{Ready, Accepts, IsRead, Tells, leaves};

use carrier::Program;
use sources::Prepared;
use walker::Walk;

// The bytes of a table of 4,096 words.
const TABLE: usize = 8192;

// The sheets of both texts, that of the old one first.
const SHEETS: usize = 2 * carrier::SHEET;

// The texts by their numbers, and neither.
const NO_TEXT: u64 = 0;

const OLD_TEXT: u64 = 1;

const NEW_TEXT: u64 = 2;

// What carrying tells: a number, the text at fault and the part of it, and the carried walk where the number is 0.
#[derive(Clone, Copy)]
pub struct Carried {
    pub number: u16,
    pub text: u64,
    pub start: usize,
    pub len: usize,
    pub walk: Walk,
}

// The walk between two texts that are accepted: 51, 52 or 0 and the carried walk.
fn carry_prepared(old: Program, new: Program, walk: Walk) -> Carried
    requires { Ready old.text.now old.table.now old.sheet.now × Ready new.text.now new.table.now new.sheet.now }
    ensures { Tells result (answer_of (carrying (source_of old.entry.text.now) (source_of new.entry.text.now) (view.walk_of walk))) }
{
    if !carrier::same_sections(old.text, new.text) {
        return Carried {
            number: carrier::SECTIONS_DIFFER,
            text: NO_TEXT,
            start: 0,
            len: 0,
            walk,
        };
    }
    let Some(carried) = carrier::carry_walk(old, new, walk) else {
        return Carried {
            number: carrier::RULE_DIFFERS,
            text: NO_TEXT,
            start: 0,
            len: 0,
            walk,
        };
    };
    Carried {
        number: 0,
        text: NO_TEXT,
        start: 0,
        len: 0,
        walk: carried,
    }
}

// The rules of a text. What was read of its declarations has its room here alone, so that the table can have it afterwards.
fn read_new(text: &[u8], cells: &mut [u16], sorts: &mut [u8], sheet: &mut [u16]) -> Prepared
    requires { (length cells.old ≡ 4224) × (length sorts.old ≡ 128) × (length sheet.old ≡ 770) }
    ensures { Reads text.now cells.new sorts.new sheet.new result.number result.start result.len }
{
    let mut rows = [0u16; frontend::ROWS];
    sources::read_rules(text, &mut rows, cells, sorts, sheet)
}

// The new text is read too, and has its table here.
fn carry_read(
    a: &[u8],
    old: &[u8],
    new: &[u8],
    sheets: &[u16],
    cells: &[u16],
    sorts: &[u8],
    walk: Walk,
) -> Carried
    requires { (length sheets.now ≡ 1540) × Accepts old.now a.now (take 770 sheets.now) × IsRead new.now cells.now sorts.now (drop 770 sheets.now) }
    ensures { Tells result (carry_texts old.now new.now (view.walk_of walk)) }
{
    let mut b = [0u8; TABLE];
    sources::write_table(cells, sorts, &sheets[carrier::SHEET..], &mut b);
    let before = Program {
        table: a,
        text: old,
        sheet: &sheets[..carrier::SHEET],
    };
    let after = Program {
        table: &b,
        text: new,
        sheet: &sheets[carrier::SHEET..],
    };
    carry_prepared(before, after, walk)
}

// The old text is accepted, its rows are the first sheet: the new text's number, 51, 52, or 0.
fn carry_accepted(a: &[u8], old: &[u8], new: &[u8], sheets: &mut [u16], walk: Walk) -> Carried
    requires { (length sheets.old ≡ 1540) × Accepts old.now a.now (take 770 sheets.old) }
    ensures { Tells result (carry_texts old.now new.now (view.walk_of walk)) }
{
    let mut cells = [0u16; frontend::CELLS];
    let mut sorts = [0u8; frontend::RULES];
    let q = read_new(new, &mut cells, &mut sorts, &mut sheets[carrier::SHEET..]);
    if q.number != 0 {
        return Carried {
            number: q.number,
            text: NEW_TEXT,
            start: q.start,
            len: q.len,
            walk,
        };
    }
    carry_read(a, old, new, sheets, &cells, &sorts, walk)
}

// The walk between two texts: the old text's number, the new text's, 51, 52, or 0.
fn carry(old: &[u8], new: &[u8], walk: Walk) -> Carried
    ensures { Tells result (carry_texts old.now new.now (view.walk_of walk)) }
{
    let mut a = [0u8; TABLE];
    let mut sheets = [0u16; SHEETS];
    let p = sources::prepare(old, &mut a, &mut sheets[..carrier::SHEET]);
    if p.number != 0 {
        return Carried {
            number: p.number,
            text: OLD_TEXT,
            start: p.start,
            len: p.len,
            walk,
        };
    }
    carry_accepted(&a, old, new, &mut sheets, walk)
}

// Carries a walk, on bytes alone.
#[unsafe(no_mangle)]
pub extern "C" fn sst_carry(
    old: &[u8],
    new: &[u8],
    walk: &mut [u8],
    text: &mut u64,
    start: &mut u64,
    len: &mut u64,
) -> u16
    ensures { leaves result text.new start.new len.new walk.new ≡ carry_bytes old.now new.now walk.old }
{
    let Some(w) = firmware::read_walk(walk) else {
        *text = NO_TEXT;
        *start = 0;
        *len = 0;
        return base::REFUSED;
    };
    let r = carry(old, new, w);
    *text = r.text;
    *start = r.start as u64;
    *len = r.len as u64;
    if r.number == 0 {
        let carried = r.walk;
        firmware::put_walk(walk, carried);
    }
    r.number
}
