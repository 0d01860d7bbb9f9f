// A part translated by itself: the words of its object in the lent bytes, or the first fault of its two texts.
#![tactic(auto)]

ghost use Rattle.std.specs.Prelude.{List, ◌≡◌, ◌-◌, ◌<◌, ◌≤◌, length, replicate};
ghost use Rattle.base.specs.Faults.{fault_number};
ghost use Rattle.partrules.specs.Opened.{RulesDone};
ghost use Rattle.symbols.specs.Index.{Kept};
ghost use Rattle.separate.specs.Answers.{Refused, Concludes, Makes};
ghost use Rattle.separate.specs.Objects.{sized, WritesObject, TranslatesIn};
ghost use Rattle.machine.specs.Bytes.{words_of};
ghost use Rattle.separate.specs.Steps.{ReadsTexts, StandsIn, FindsNames};
ghost use Rattle.separate.specs.Uses.{UsePut, UsesPut};

use base::Refusal;
use partrules::{Part, Rules, Spot};
use partwriter::Sizes;

// The common part and the part, by number.
const COMMON: usize = 0;

const PART: usize = 1;

// Two cells for each word of a rule, and a part has 32,768 bytes at most.
const CELLS: usize = 65535;

// Both texts, and a line feed between them.
const BUFFER: usize = 65536;

// The rows of names and their index, as crate collector asks for them.
const ROWS: usize = symbols::PAIR_SECTION + symbols::PAIR * base::RULES;

// A fault's number, 0 for none; the text that shows it, and the part of that text.
#[derive(Clone, Copy, Debug, PartialEq, Eq)]
pub struct Fault {
    pub number: u16,
    pub text: usize,
    pub start: usize,
    pub len: usize,
}

// Both texts read: where the common part's `end` begins, and the place right behind the part's word `rules`.
#[derive(Clone, Copy, Debug, PartialEq, Eq)]
pub struct Texts {
    pub fault: Fault,
    pub at: usize,
    pub from: usize,
}

// The names of both texts: how many rows there are, and the first rule's.
#[derive(Clone, Copy, Debug, PartialEq, Eq)]
pub struct Named {
    pub count: usize,
    pub first: usize,
}

// Words written, also those past the room for them.
#[derive(Clone, Copy, Debug, PartialEq, Eq)]
pub struct Written {
    pub fault: Fault,
    pub words: usize,
}

// The answer: the number of the fault, 0 for none; the text that shows it, and the part of that text; the words of the object.
#[derive(Clone, Copy, Debug, PartialEq, Eq)]
pub struct Made {
    pub number: u16,
    pub text: usize,
    pub start: usize,
    pub len: usize,
    pub words: usize,
}

// Reading

fn unread(number: u16, text: usize, start: usize, len: usize) -> Texts
    ensures { (result.fault.number ≡ number) × (result.fault.text ≡ text) × (result.fault.start ≡ start) × (result.fault.len ≡ len) }
{
    let fault = Fault {
        number,
        text,
        start,
        len,
    };
    Texts {
        fault,
        at: 0,
        from: 0,
    }
}

// Over-long text is 9 before all else; then 1, 2 and 9 of the common part, then of the part.
fn read_texts(common: &[u8], part: &[u8]) -> Texts
    ensures { ReadsTexts common.now part.now result }
{
    if base::TEXT_BYTES < common.len() {
        return unread(base::OVER_LIMIT, COMMON, common.len(), 0);
    }
    if base::TEXT_BYTES < part.len() {
        return unread(base::OVER_LIMIT, PART, part.len(), 0);
    }
    let c = match reader::check_common(common) {
        Ok(c) => c,
        Err(e) => return unread(u16::from(e.fault), COMMON, e.at, e.len),
    };
    let from = match reader::check_part(part, c.room) {
        Ok(from) => from,
        Err(e) => return unread(u16::from(e.fault), PART, e.at, e.len),
    };
    let fault = Fault {
        number: 0,
        text: 0,
        start: 0,
        len: 0,
    };
    Texts {
        fault,
        at: c.at,
        from,
    }
}

// Names

// A refusal in a text whose words stand `moved` further on here.
fn shown(e: Refusal, text: usize, moved: usize) -> Fault
    ensures { (result.number ≡ fault_number e.fault) × (result.text ≡ text) × (result.start ≡ e.at - moved) × (result.len ≡ e.len) }
{
    Fault {
        number: u16::from(e.fault),
        text,
        start: e.at.saturating_sub(moved),
        len: e.len,
    }
}

// Rows of the sections, the list and the other rules that the part names: 9 where these are too many, then the faults of the common part.
fn find_names(text: &[u8], rows: &mut [u16], moved: usize) -> Result<Named, Fault>
    requires { (length text.now ≤ 65535) × (length rows.old ≡ 6017) }
    ensures { FindsNames text.now rows.old rows.new moved result }
{
    let d = partnames::declare(text, rows);
    let count = match partnames::add_others(text, rows, d.count, d.first, d.at) {
        Ok(count) => count,
        Err(e) => return Err(shown(e, PART, moved)),
    };
    let lines = d.count - d.first;
    match partnames::settle(text, rows, count, d.first, lines) {
        Ok(()) => Ok(Named {
            count,
            first: d.first,
        }),
        Err(e) => Err(shown(e, COMMON, 0)),
    }
}

// The first uses of a part's pairs

// The use whose `^` is the next word at the place `at`: where its `^` stands and its length, its section, its operand rule.
fn put_use(text: &[u8], at: usize, moved: usize, object: &mut [u8], c: usize) -> usize
    requires { length text.now < 65536 }
    ensures { UsePut text.now at moved object.old c object.new result }
{
    if text.len() < at {
        return c;
    }
    let u = partpairs::read_words(text, at);
    let start = u.sign.start.saturating_sub(moved);
    let a = partwriter::put_two(object, c, start as u16, u.sign.len as u16);
    let b = partwriter::put_name(object, a, text, u.section, moved);
    partwriter::put_name(object, b, text, u.operand, moved)
}

// The uses whose places `signs` holds.
pub fn put_uses(
    text: &[u8],
    signs: &[u16],
    count: usize,
    moved: usize,
    object: &mut [u8],
    c: usize,
) -> usize
    requires { (length text.now < 65536) × (count ≤ length signs.now) }
    ensures { UsesPut text.now signs.now count moved object.old c object.new result }
{
    let mut n = partwriter::counted(object, c);
    for sign in &signs[..count] {
        n = put_use(text, usize::from(*sign), moved, object, n);
    }
    n
}

// The object

// A common part and a part in one text: the bytes of the part, how much further on its words stand here, the place of its rules; how many rows there
// are, how many of them are rules', and how many pairs the part has.
#[derive(Clone, Copy, Debug, PartialEq, Eq)]
pub struct Plan {
    pub size: usize,
    pub moved: usize,
    pub at: usize,
    pub count: usize,
    pub rules: usize,
    pub pairs: usize,
}

// The part's rules behind the first c words.
fn write_rules(text: &[u8], rows: &[u16], p: Plan, object: &mut [u8], c: usize) -> Rules
    requires { (p.at ≤ length text.now) × (length text.now < 65536) × Kept text.now rows.now p.count × (0 < p.rules) }
    ensures { RulesDone text.now rows.now p.count p.rules p.moved 0 p.at 65535 (replicate 512 0) object.old c object.new result }
{
    let mut seen = [0u8; base::NAMES];
    let mut cells = [0u16; CELLS];
    let part = Part {
        n: p.count,
        first: p.rules,
        moved: p.moved,
    };
    let spot = Spot { at: p.at, count: c };
    partrules::open_rules(text, rows, part, spot, &mut seen, &mut cells, object)
}

fn unwritten(number: u16, text: usize, start: usize, len: usize) -> Written
    ensures { (result.fault.number ≡ number) × (result.fault.text ≡ text) × (result.fault.start ≡ start) × (result.fault.len ≡ len) }
{
    let fault = Fault {
        number,
        text,
        start,
        len,
    };
    Written { fault, words: 0 }
}

// The words that are known last: how many stand behind the first three, in 32 bits, and how many rules there are.
fn set_sizes(object: &mut [u8], words: usize, rules: usize)
    ensures { words_of object.new ≡ sized (words_of object.old) words rules }
{
    let behind = words.saturating_sub(3);
    partwriter::set_word(
        object,
        1,
        (behind / base::WORD_VALUES % base::WORD_VALUES) as u16,
    );
    partwriter::set_word(object, 2, (behind % base::WORD_VALUES) as u16);
    partwriter::set_word(object, 5, (rules % base::WORD_VALUES) as u16);
}

// Its front, the common part, the pairs, the rules; or the first fault of the rules.
fn write_object(
    common: &[u8],
    text: &[u8],
    rows: &[u16],
    signs: &[u16],
    p: Plan,
    object: &mut [u8],
) -> Written
    requires { (length common.now ≤ 32768) × (p.size < 65536) × (p.at ≤ length text.now) × (length text.now < 65536) × Kept text.now rows.now p.count × (0 < p.rules) × (p.pairs ≤ length signs.now) × (p.pairs ≤ 8192) }
    ensures { WritesObject common.now text.now rows.now signs.now p object.new result }
{
    let sizes = Sizes {
        part: p.size as u16,
        rules: 0,
        pairs: p.pairs as u16,
    };
    let a = partwriter::put_front(object, common, sizes);
    let b = put_uses(text, signs, p.pairs, p.moved, object, a);
    let r = write_rules(text, rows, p, object, b);
    if r.fault != 0 {
        return unwritten(r.fault, PART, r.at.saturating_sub(p.moved), r.len);
    }
    set_sizes(object, r.count, r.rules);
    let fault = Fault {
        number: 0,
        text: 0,
        start: 0,
        len: 0,
    };
    Written {
        fault,
        words: r.count,
    }
}

// The object of the part whose rules stand from the place `at` on, `moved` further on than in the part, which has so many bytes; or the first fault.
fn translate(
    common: &[u8],
    size: usize,
    text: &[u8],
    at: usize,
    moved: usize,
    object: &mut [u8],
) -> Written
    requires { (length common.now ≤ 32768) × (size ≤ 32768) × StandsIn text.now at }
    ensures { TranslatesIn common.now size text.now at moved object.new result }
{
    let mut rows = [0u16; partpairs::PART_ROWS];
    let f = match find_names(text, &mut rows[..ROWS], moved) {
        Ok(f) => f,
        Err(fault) => return Written { fault, words: 0 },
    };
    let mut signs = [0u16; partpairs::PART_PAIRS];
    let rules = f.count - f.first;
    let pairs = partpairs::pairs(text, &mut rows, &mut signs, f.count, rules, at);
    let plan = Plan {
        size,
        moved,
        at,
        count: f.count,
        rules,
        pairs,
    };
    write_object(common, text, &rows, &signs, plan, object)
}

// Answers

// All lent words are zero.
fn refuse(object: &mut [u8], f: Fault) -> Made
    ensures { Refused object.old object.new f result }
{
    buffers::clear_words(object);
    Made {
        number: f.number,
        text: f.text,
        start: f.start,
        len: f.len,
        words: 0,
    }
}

// 20 at the end of the part where the words are more than the lent ones; zeros behind them.
fn conclude(object: &mut [u8], size: usize, w: Written) -> Made
    ensures { Concludes object.old object.new size w result }
{
    if w.fault.number != 0 {
        return refuse(object, w.fault);
    }
    if partwriter::room(object) < w.words {
        let fault = Fault {
            number: base::TOO_SHORT,
            text: PART,
            start: size,
            len: 0,
        };
        return refuse(object, fault);
    }
    partwriter::zero_from(object, w.words);
    Made {
        number: 0,
        text: 0,
        start: 0,
        len: 0,
        words: w.words,
    }
}

// The whole: both texts read, brought into one buffer, and translated there.
pub fn make_object(common: &[u8], part: &[u8], object: &mut [u8]) -> Made
    ensures { Makes common.now part.now object.old object.new result }
{
    let t = read_texts(common, part);
    let fault = t.fault;
    if fault.number != 0 {
        return refuse(object, fault);
    }
    let mut buffer = [0u8; BUFFER];
    let n = partnames::join(common, t.at, part, t.from, &mut buffer);
    let place = partnames::part_place(t.at, t.from);
    let moved = place - t.from;
    let size = part.len();
    let even = 2 * partwriter::room(object);
    let w = translate(
        common,
        size,
        &buffer[..n],
        place,
        moved,
        &mut object[..even],
    );
    conclude(object, size, w)
}
