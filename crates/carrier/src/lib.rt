// Carrying a walk to new rules: where a location stands, which rules have one name, and whether two rules have the same words.
#![tactic(auto)]

ghost use Rattle.std.specs.Prelude.{◌≡◌, ◌+◌, ◌*◌, ◌<◌, ◌≤◌, [], get_or};
ghost use Rattle.carry.specs.Carry.{same_name};
ghost use Rattle.machine.specs.Bytes.{count, words_of};
ghost use Rattle.carrier.specs.Held.{count_held, size_held, rule_held, name_held, calls_held, find_held, end_held, Laid, words_held, place_held};
ghost use Rattle.carrier.specs.Going.{meant, announces, expects_by, words_meet, Tells};
ghost use Rattle.carrier.specs.Places.{IsRule, IsPlace};
ghost use Rattle.carrier.specs.Sections.{Sections};
ghost use Rattle.carrier.specs.Walks.{CarriesWalk};
ghost use Rattle.carry.specs.Scan.{instruction, labels_left, is_call, same_scan};
ghost use Rattle.symbols.specs.Search.{part};

use walker::Walk;

// A row of a rule: its location, its name as a part of the text; of a rule made for operators the name of its section, then that of its operand rule and its level.
pub const ROW: usize = 6;

pub const NAME_START: usize = 1;

pub const NAME_LEN: usize = 2;

pub const OPERAND_START: usize = 3;

pub const OPERAND_LEN: usize = 4;

pub const LEVEL: usize = 5;

// A sheet: the rows of all rules, then how many rules there are, then how many words their table has.
pub const COUNT: usize = ROW * base::RULES;

pub const SIZE: usize = COUNT + 1;

pub const SHEET: usize = SIZE + 1;

// The numbers of sections that differ, and of a rule in progress that differs or is gone, or a place in no rule.
pub const SECTIONS_DIFFER: u16 = 51;

pub const RULE_DIFFERS: u16 = 52;

// A program: the bytes of its table, its text, and the sheet of its rules.
#[derive(Clone, Copy)]
pub struct Program<'a> {
    pub table: &'a [u8],
    pub text: &'a [u8],
    pub sheet: &'a [u16],
}

// What the next word is: an instruction, or the count of a choice table where one stands; the operand of this instruction; a word of a choice table, with so many behind it.
#[derive(Clone, Copy, Debug, PartialEq, Eq)]
pub enum Expects {
    Instruction,
    Operand(u16),
    Label(usize),
}

// Rules

impl<'a> Program<'a> {
    // Where rule i begins: the location of its first word.
    fn location(self, i: usize) -> usize
        requires { i < 128 }
        ensures { (result ≡ get_or self.entry.sheet.now (6 * i) 0) × (result < 65536) }
    {
        base::number(self.sheet, ROW * i)
    }

    // The name of rule i, or that of its section.
    fn name(self, i: usize) -> &'a [u8]
        requires { i < 128 }
        ensures { result.now ≡ part self.entry.text.now (get_or self.entry.sheet.now (6 * i + 1) 0) (get_or self.entry.sheet.now (6 * i + 2) 0) }
    {
        let start = base::number(self.sheet, ROW * i + NAME_START);
        let len = base::number(self.sheet, ROW * i + NAME_LEN);
        base::part(self.text, start, len)
    }

    // The name of the operand rule of rule i.
    fn operand(self, i: usize) -> &'a [u8]
        requires { i < 128 }
        ensures { result.now ≡ part self.entry.text.now (get_or self.entry.sheet.now (6 * i + 3) 0) (get_or self.entry.sheet.now (6 * i + 4) 0) }
    {
        let start = base::number(self.sheet, ROW * i + OPERAND_START);
        let len = base::number(self.sheet, ROW * i + OPERAND_LEN);
        base::part(self.text, start, len)
    }

    // The level of rule i: 0 of a rule that is written.
    fn level(self, i: usize) -> usize
        requires { i < 128 }
        ensures { result ≡ get_or self.entry.sheet.now (6 * i + 5) 0 }
    {
        base::number(self.sheet, ROW * i + LEVEL)
    }

    // The rule in which the location l lies.
    fn rule_at(self, l: usize) -> Option<usize>
        requires { count_held self.sheet.now ≤ 128 }
        ensures { IsRule result (rule_held self.entry.sheet.now l) }
    {
        if l == 0 || base::number(self.sheet, SIZE) < l {
            return None;
        }
        for k in (0..base::number(self.sheet, COUNT)).rev() {
            if self.location(k) <= l {
                return Some(k);
            }
        }
        None
    }

    // Behind the last word of rule i.
    fn end_of(self, i: usize) -> usize
        requires { (i < 128) × (size_held self.sheet.now ≤ 4096) }
        ensures { (result ≡ end_held self.entry.sheet.now i) × (result < 65536) }
    {
        if i + 1 < base::number(self.sheet, COUNT) {
            return base::number(self.sheet, ROW * (i + 1));
        }
        base::number(self.sheet, SIZE) + 1
    }
}

// The names of rule i of one program and of rule j of the other are the same.
#[tactic(auto, using(base::proofs::Laws::same_slices))]
fn same_names(old: Program, i: usize, new: Program, j: usize) -> bool
    requires { (i < 128) × (j < 128) }
    ensures { result ≡ same_name (name_held old.entry.text.now old.entry.sheet.now i) (name_held new.entry.text.now new.entry.sheet.now j) }
{
    let level = old.level(i);
    if level != new.level(j) || old.name(i) != new.name(j) {
        return false;
    }
    level == 0 || old.operand(i) == new.operand(j)
}

// The rule of the new program that has the name of rule i.
fn rule_named(old: Program, i: usize, new: Program) -> Option<usize>
    requires { (i < 128) × (count_held new.sheet.now ≤ 128) }
    ensures { IsRule result (find_held old.entry.text.now old.entry.sheet.now i new.entry.text.now new.entry.sheet.now (count_held new.entry.sheet.now) 0) }
{
    for j in 0..base::number(new.sheet, COUNT) {
        if same_names(old, i, new, j) {
            return Some(j);
        }
    }
    None
}

// The rules in which two locations lie have one name.
fn calls_meet(old: Program, new: Program, x: usize, y: usize) -> bool
    requires { (count_held old.sheet.now ≤ 128) × (count_held new.sheet.now ≤ 128) }
    ensures { result ≡ calls_held old.entry.text.now old.entry.sheet.now new.entry.text.now new.entry.sheet.now x y }
{
    let Some(i) = old.rule_at(x) else {
        return false;
    };
    let Some(j) = new.rule_at(y) else {
        return false;
    };
    same_names(old, i, new, j)
}

// Words

// So many words of a choice table.
fn labels(n: usize) -> Expects
    ensures { meant result ≡ labels_left n }
{
    if n == 0 {
        Expects::Instruction
    } else {
        Expects::Label(n - 1)
    }
}

// What is expected behind the word w; here: a choice table stands at its place.
fn after(here: bool, next: Expects, w: u16) -> Expects
    ensures { meant result ≡ expects_by here (meant next) w }
{
    match next {
        Expects::Operand(_) => Expects::Instruction,
        Expects::Label(n) => labels(n),
        Expects::Instruction if here => labels(2 * usize::from(w)),
        Expects::Instruction if machine::instruction_length(w) == 2 => Expects::Operand(w),
        Expects::Instruction => Expects::Instruction,
    }
}

impl Expects {
    // The operand of a choice.
    fn announces(self) -> bool
        ensures { result ≡ announces (meant self) }
    {
        match self {
            Expects::Operand(i) => i == machine::INPUT_CHOICE || i == machine::CHOICE,
            Expects::Instruction => false,
            Expects::Label(_) => false,
        }
    }

    // The operand of a call.
    fn calls(self) -> bool
        ensures { result ≡ is_call (meant self) }
    {
        match self {
            Expects::Operand(i) => i == machine::CALL,
            Expects::Instruction => false,
            Expects::Label(_) => false,
        }
    }
}

// The operand of a choice tells where its choice table stands.
fn announce(flags: &mut [u8], o: usize, next: Expects, w: u16)
    requires { o < 4096 }
    ensures { Tells flags.old o (meant next) w flags.new }
{
    if next.announces() {
        let t = o + usize::from(w);
        if t < flags.len() {
            flags[t] = 1;
        }
    }
}

// Two words: those of a call by the names of the rules in which they lie, any others as they are.
fn words_meet(old: Program, new: Program, next: Expects, w: u16, v: u16) -> bool
    requires { (count_held old.sheet.now ≤ 128) × (count_held new.sheet.now ≤ 128) }
    ensures { result ≡ words_meet (calls_held old.entry.text.now old.entry.sheet.now new.entry.text.now new.entry.sheet.now w v) (meant next) w v }
{
    if next.calls() {
        calls_meet(old, new, usize::from(w), usize::from(v))
    } else {
        w == v
    }
}

// Where the words of two rules begin, counted from 0, and how many there are.
#[derive(Clone, Copy, Debug, PartialEq, Eq)]
pub struct Span {
    pub i: usize,
    pub j: usize,
    pub n: usize,
}

// A rule of one table and a rule of the other, of the same length, have the same words, calls by the names of the rules that they go to.
pub fn same_words(old: Program, new: Program, span: Span) -> bool
    requires { (span.i + span.n ≤ count old.table.now) × (span.j + span.n ≤ count new.table.now) × (span.n ≤ 4096) × (span.i ≤ 4096) × (span.j ≤ 4096) × (count_held old.sheet.now ≤ 128) × (count_held new.sheet.now ≤ 128) }
    ensures { result ≡ same_scan (calls_held old.entry.text.now old.entry.sheet.now new.entry.text.now new.entry.sheet.now) [] 0 instruction (part (words_of old.entry.table.now) span.i span.n) (part (words_of new.entry.table.now) span.j span.n) }
{
    let mut flags = [0u8; 4096];
    let mut next = Expects::Instruction;
    for o in 0..span.n {
        let w = machine::word(old.table, span.i + o);
        let v = machine::word(new.table, span.j + o);
        if !words_meet(old, new, next, w, v) {
            return false;
        }
        let here = flags[o] == 1;
        announce(&mut flags, o, next, w);
        next = after(here, next, w);
    }
    true
}

// Rule i of one program and rule j of the other have the same words.
fn same_rules(old: Program, i: usize, new: Program, j: usize) -> bool
    requires { Laid old.sheet.now old.table.now × Laid new.sheet.now new.table.now × (i < count_held old.sheet.now) × (j < count_held new.sheet.now) }
    ensures { result ≡ words_held old.entry.table.now new.entry.table.now old.entry.text.now old.entry.sheet.now new.entry.text.now new.entry.sheet.now i j }
{
    let p = old.location(i);
    let q = new.location(j);
    let n = old.end_of(i) - p;
    let m = new.end_of(j) - q;
    if m != n {
        return false;
    }
    let span = Span {
        i: p - 1,
        j: q - 1,
        n,
    };
    same_words(old, new, span)
}

// The place that a location becomes in the new table: the rule in which it lies is there by its name, with the same words, and the place is as far behind its first word.
pub fn carry_place(old: Program, new: Program, l: usize) -> Option<usize>
    requires { Laid old.sheet.now old.table.now × Laid new.sheet.now new.table.now }
    ensures { IsPlace result (place_held old.entry.table.now new.entry.table.now old.entry.text.now old.entry.sheet.now new.entry.text.now new.entry.sheet.now l) }
{
    let i = old.rule_at(l)?;
    let j = rule_named(old, i, new)?;
    if !same_rules(old, i, new, j) {
        return None;
    }
    Some(new.location(j) + (l - old.location(i)))
}

// The walk with its location and the return locations that it holds carried, all else kept, where each of its places becomes one.
pub fn carry_walk(old: Program, new: Program, walk: Walk) -> Option<Walk>
    requires { Laid old.sheet.now old.table.now × Laid new.sheet.now new.table.now }
    ensures { CarriesWalk old.entry.table.now new.entry.table.now old.entry.text.now old.entry.sheet.now new.entry.text.now new.entry.sheet.now walk result }
{
    let phase = walk.phase;
    let mut at = walk.at;
    let mut returns = walk.returns;
    at.location = carry_place(old, new, at.location)?;
    for i in 0..at.depth.min(base::PENDING) {
        let l = carry_place(old, new, usize::from(returns[i]))?;
        returns[i] = l as u16;
    }
    Some(Walk { phase, at, returns })
}

// Sections

// The words before `rules` of two texts that have been read are the same, byte for byte.
pub fn same_sections(old: &[u8], new: &[u8]) -> bool
    ensures { Sections old.now new.now result }
{
    let mut i: usize = 0;
    let mut j: usize = 0;
    // no range: a word says where the next begins
    loop {
        let w = scanner::next_word(old, i);
        let v = scanner::next_word(new, j);
        if w.kind == words::RULES {
            return v.kind == words::RULES;
        }
        if v.kind == words::RULES || w.kind < words::FIRST_WORD || v.kind < words::FIRST_WORD {
            return false;
        }
        if base::part(old, w.start, w.len) != base::part(new, v.start, v.len) {
            return false;
        }
        i = w.next;
        j = v.next;
    }
}
