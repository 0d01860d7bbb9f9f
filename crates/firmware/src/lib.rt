// What the C entries of include/sst.h do (firmware_c exports them): numbers and byte slices, the walk as its 158 bytes (docs/LAYOUT.md).
#![tactic(auto)]

ghost use Rattle.std.specs.Prelude.{[], ◌∷◌, reverse, false, ◌≡◌, ◌+◌, ◌*◌, ◌<◌, ◌≤◌, min, length, take, drop, get_or, IfSome, IfNone};
ghost use Rattle.machine.specs.Bytes.{words_of, table_of, count};
ghost use Rattle.machine.specs.Walk.{fresh};
ghost use Rattle.std.proofs.Math.Option.{none};
ghost use Rattle.machine.specs.Call.{whole, paused};
ghost use Rattle.machine.specs.Form as form;
ghost use Rattle.loading.specs.File as files;
ghost use Rattle.rights.specs.Rights as rights;
ghost use Rattle.processor.specs.Process.{process, lent_bytes};
ghost use Rattle.filtering.specs.Filter as filtering;
ghost use Rattle.screen.specs.Screen.{is_book, screen_number, fresh_book, fresh_bytes, refill_number, refill_bytes, turn_bytes};
ghost use Rattle.firmware.specs.Filing.{hands};
ghost use Rattle.firmware.specs.Turning.{leaves};
ghost use Rattle.figure.specs.Told.{figure_of};
ghost use Rattle.firmware.specs.Processing.{flag_of, numbers_of, tells};
ghost use Rattle.walker.specs.Linked as linked;
ghost use Rattle.walker.specs.Shape.{ending_number};
ghost use Rattle.walker.specs.View as view;
ghost use Rattle.firmware.specs.Writes.{puts, register_words, registers_in, Is};
ghost use Rattle.firmware.specs.Entries.{phase_in, reason_in, phase_number, reason_or_none, location_or0, read_or0, used_or0, allowance_or0, fresh_number, fresh_in, handing, gives};

use admission::AdmissionError;
use base::{PENDING, low_word};
use buffers::{put_64, put_word, read_64, wide_word};
use walker::{Called, Phase, Reason, Registers, Walk};

// The bytes of a walk, and where its words begin (docs/LAYOUT.md).
const WALK_BYTES: usize = 158;

const PHASE_WORD: usize = 0;

const REASON_WORD: usize = 1;

const LOCATION_WORD: usize = 2;

const RESULT_WORD: usize = 3;

const PARAMETER_WORD: usize = 4;

const DEPTH_WORD: usize = 5;

const ALLOWANCE_WORD: usize = 6;

const READ_WORD: usize = 7;

const USED_WORD: usize = 11;

const RETURNS_WORD: usize = 15;

// The numbers of phases, that of bytes which are no walk, and the reason of a walk that has not stopped.
const GOING: u16 = 0;

const WAITING: u16 = 1;

const STOPPED: u16 = 2;

const NO_WALK: u16 = 3;

const NO_REASON: u16 = 65535;

// The books of a screen, the bytes and words of each, and where its steps left begin.
const BOOKS: u16 = 2;

const BOOK_BYTES: usize = 166;

const SCREEN_BYTES: usize = 332;

const BOOK_WORDS: usize = 83;

const LEFT_WORD: usize = 79;

// Writing words

fn put_two(out: &mut [u8], i: usize, a: u16, b: u16)
    requires { 2 * i + 4 ≤ length out.old }
    ensures { out.new ≡ puts out.old i (a ∷ b ∷ []) }
{
    put_word(out, i, a);
    put_word(out, i + 1, b);
}

fn put_four(out: &mut [u8], i: usize, a: u16, b: u16, d: u16, e: u16)
    requires { 2 * i + 8 ≤ length out.old }
    ensures { out.new ≡ puts out.old i (a ∷ b ∷ d ∷ e ∷ []) }
{
    put_two(out, i, a, b);
    put_two(out, i + 2, d, e);
}

// Words 0 and 1 of a walk.
fn put_phase(out: &mut [u8], p: Phase)
    requires { 4 ≤ length out.old }
    ensures { out.new ≡ puts out.old 0 (form.phase_words (view.phase_of p)) }
{
    match p {
        Phase::Going => put_two(out, PHASE_WORD, GOING, 0),
        Phase::Waiting => put_two(out, PHASE_WORD, WAITING, 0),
        Phase::Stopped(r) => put_two(out, PHASE_WORD, STOPPED, u16::from(r)),
    }
}

// The return locations held: more than 64 are read as the first 64.
fn held_of(depth: usize) -> u16
    ensures { result ≡ min depth 64 }
{
    depth.min(PENDING) as u16
}

// Words 2 to 14.
fn put_registers(out: &mut [u8], r: Registers)
    requires { (30 ≤ length out.old) × (r.location < 65536) }
    ensures { out.new ≡ puts out.old 2 (register_words r) }
{
    put_four(
        out,
        LOCATION_WORD,
        r.location as u16,
        low_word(r.result),
        low_word(r.parameter),
        held_of(r.depth),
    );
    put_word(out, ALLOWANCE_WORD, low_word(r.allowance));
    put_64(out, READ_WORD, r.read);
    put_64(out, USED_WORD, r.used);
}

// Words 15 to 78.
fn put_returns(out: &mut [u8], returns: &[u16], depth: usize)
    requires { (158 ≤ length out.old) × (length returns.now ≡ 64) }
    ensures { out.new ≡ puts out.old 15 (form.return_words (reverse (take depth returns.now))) }
{
    let held = depth.min(PENDING);
    for i in 0..held {
        put_word(out, RETURNS_WORD + i, returns[i]);
    }
    for i in held..PENDING {
        put_word(out, RETURNS_WORD + i, 0);
    }
}

// The form of a walk: 79 words.
pub fn put_walk(out: &mut [u8], w: Walk)
    requires { (length out.old ≡ 158) × (w.at.location < 65536) }
    ensures { out.new ≡ form.walk_bytes (view.walk_of w) }
{
    put_phase(out, w.phase);
    put_registers(out, w.at);
    put_returns(out, &w.returns, w.at.depth);
}

// Reading words

fn reason_of(n: u16) -> Reason
    ensures { view.reason_of result ≡ form.reason_of n }
{
    match n {
        base::DIFFERS => Reason::Differs,
        base::MISSING => Reason::Missing,
        base::UNLABELLED => Reason::Unlabelled,
        base::DEEP => Reason::Deep,
        base::UNANSWERED => Reason::Unanswered,
        base::OUTSIDE => Reason::Outside,
        _ => Reason::Finished,
    }
}

fn phase_of(p: u16, n: u16) -> Phase
    ensures { view.phase_of result ≡ form.phase_of p n }
{
    match p {
        GOING => Phase::Going,
        WAITING => Phase::Waiting,
        _ => Phase::Stopped(reason_of(n)),
    }
}

// The registers by words 2 to 14.
fn registers_of(s: &[u8]) -> Registers
    ensures { (result ≡ registers_in (words_of s.now)) × (result.location < 65536) }
{
    Registers {
        location: wide_word(s, LOCATION_WORD) as usize,
        depth: wide_word(s, DEPTH_WORD) as usize,
        result: wide_word(s, RESULT_WORD),
        parameter: wide_word(s, PARAMETER_WORD),
        read: read_64(s, READ_WORD),
        used: read_64(s, USED_WORD),
        allowance: wide_word(s, ALLOWANCE_WORD),
    }
}

// The return locations by words 15 to 78.
fn returns_of(s: &[u8]) -> [u16; PENDING]
    requires { length s.now ≡ 158 }
    ensures { result ≡ take 64 (drop 15 (words_of s.now)) }
{
    let mut returns = [0u16; PENDING];
    for i in 0..PENDING {
        returns[i] = machine::word(s, RETURNS_WORD + i);
    }
    returns
}

// What the words name, if they are a walk's.
fn named(s: &[u8]) -> Walk
    requires { length s.now ≡ 158 }
    ensures { (view.walk_of result ≡ form.walk_named (words_of s.now)) × (result.at.location < 65536) }
{
    let phase = phase_of(machine::word(s, PHASE_WORD), machine::word(s, REASON_WORD));
    let at = registers_of(s);
    let returns = returns_of(s);
    Walk { phase, at, returns }
}

fn fresh_walk(allowance: u16) -> Walk
    ensures { (view.walk_of result ≡ fresh allowance) × (result.at.location < 65536) }
{
    Walk {
        phase: Phase::Going,
        at: walker::fresh(allowance),
        returns: [0u16; PENDING],
    }
}

// The walk that the bytes are: what they name, if that is written so.
pub fn read_walk(s: &[u8]) -> Option<Walk>
    ensures walk { IfSome result (Is s.now) }
    ensures no_walk { IfNone result (form.walk_of s.now ≡ none) }
{
    if s.len() != WALK_BYTES {
        return None;
    }
    let walk = named(s);
    let mut form = [0u8; WALK_BYTES];
    put_walk(&mut form, walk);
    if &form[..] == s { Some(walk) } else { None }
}

// Entries

// A fresh walk with a repair allowance, in a buffer of the right length.
pub fn sst_fresh(walk: &mut [u8], allowance: u16) -> u16
    ensures { (result ≡ fresh_number walk.old) × (walk.new ≡ fresh_in allowance walk.old) }
{
    if walk.len() == WALK_BYTES {
        put_walk(walk, fresh_walk(allowance));
        0
    } else {
        base::REFUSED
    }
}

// A call is refused.
fn refuse(written: &mut u64, steps: &mut u64) -> u16
    ensures { (result ≡ 21) × (written.new ≡ 0) × (steps.new ≡ 0) }
{
    *written = 0;
    *steps = 0;
    base::REFUSED
}

// A call is done: the walk is written.
fn give(r: Called, walk: &mut [u8], written: &mut u64, steps: &mut u64) -> u16
    requires { (length walk.old ≡ 158) × (r.walk.at.location < 65536) }
    ensures { (result ≡ ending_number r.ending) × (walk.new ≡ form.walk_bytes (view.walk_of r.walk)) × (written.new ≡ r.events) × (steps.new ≡ r.steps) }
{
    *written = r.events;
    *steps = r.steps;
    put_walk(walk, r.walk);
    u16::from(r.ending)
}

// A whole call, on bytes alone.
pub fn sst_whole(
    table: &[u8],
    tokens: &[u8],
    answers: &[u8],
    budget: u64,
    walk: &mut [u8],
    events: &mut [u8],
    written: &mut u64,
    steps: &mut u64,
) -> u16
    ensures { gives result walk.new events.new written.new steps.new ≡ form.call_bytes table.now tokens.now (whole (words_of answers.now)) budget walk.old events.old }
{
    let Some(w) = read_walk(walk) else {
        return refuse(written, steps);
    };
    let r = w.whole(table, tokens, answers, budget, events);
    give(r, walk, written, steps)
}

// The answer of a paused call, where one is given.
fn handed(given: u16, answer: u16) -> Option<u16>
    ensures { paused (linked.handed result) ≡ handing given answer }
{
    if given != 0 { Some(answer) } else { None }
}

// A paused call, on bytes alone.
pub fn sst_paused(
    table: &[u8],
    tokens: &[u8],
    given: u16,
    answer: u16,
    budget: u64,
    walk: &mut [u8],
    events: &mut [u8],
    written: &mut u64,
    steps: &mut u64,
) -> u16
    ensures { gives result walk.new events.new written.new steps.new ≡ form.call_bytes table.now tokens.now (handing given answer) budget walk.old events.old }
{
    let Some(w) = read_walk(walk) else {
        return refuse(written, steps);
    };
    let r = w.paused(table, tokens, handed(given, answer), budget, events);
    give(r, walk, written, steps)
}

// Two books over one table

// Whether the screen has its length and this book.
fn is_book(book: u16, screen: &[u8]) -> bool
    ensures { result ≡ is_book book screen.now }
{
    book < BOOKS && screen.len() == SCREEN_BYTES
}

// A fresh walk with its repair allowance, and no steps left.
fn fresh_book(seat: &mut [u8], allowance: u16)
    requires { length seat.old ≡ 166 }
    ensures { seat.new ≡ fresh_book allowance }
{
    put_walk(&mut seat[..WALK_BYTES], fresh_walk(allowance));
    put_64(seat, LEFT_WORD, 0);
}

// Both books begin.
pub fn sst_screen_fresh(screen: &mut [u8], allowance_0: u16, allowance_1: u16) -> u16
    ensures { (result ≡ screen_number screen.old) × (screen.new ≡ fresh_bytes allowance_0 allowance_1 screen.old) }
{
    if screen.len() != SCREEN_BYTES {
        return base::REFUSED;
    }
    fresh_book(&mut screen[..BOOK_BYTES], allowance_0);
    fresh_book(&mut screen[BOOK_BYTES..], allowance_1);
    0
}

// Where the steps left to a book begin.
fn left_word(book: u16) -> usize
    ensures { result ≡ book * 83 + 79 }
{
    usize::from(book) * BOOK_WORDS + LEFT_WORD
}

// The steps left to a book are set anew.
pub fn sst_refill(screen: &mut [u8], book: u16, left: u64) -> u16
    ensures { (result ≡ refill_number book screen.old) × (screen.new ≡ refill_bytes book left screen.old) }
{
    if !is_book(book, screen) {
        return base::REFUSED;
    }
    put_64(screen, left_word(book), left);
    0
}

// A whole turn: a call of one book with the steps left to it, which fall by those done.
pub fn sst_turn_whole(
    table: &[u8],
    tokens: &[u8],
    answers: &[u8],
    book: u16,
    screen: &mut [u8],
    events: &mut [u8],
    written: &mut u64,
    steps: &mut u64,
) -> u16
    ensures { leaves result screen.new events.new written.new steps.new ≡ turn_bytes table.now tokens.now (whole (words_of answers.now)) book screen.old events.old }
{
    if !is_book(book, screen) {
        return refuse(written, steps);
    }
    let place = left_word(book);
    let left = read_64(screen, place);
    let from = book as usize * BOOK_BYTES;
    let end = from + WALK_BYTES;
    let n = sst_whole(
        table,
        tokens,
        answers,
        left,
        &mut screen[from..end],
        events,
        written,
        steps,
    );
    let done = *steps;
    put_64(screen, place, left - done);
    n
}

// A paused turn. It is the whole one but for its call; one function over both would take an enum of the two ways to answer, and a match that is longer
// than the lines that it spares.
pub fn sst_turn_paused(
    table: &[u8],
    tokens: &[u8],
    given: u16,
    answer: u16,
    book: u16,
    screen: &mut [u8],
    events: &mut [u8],
    written: &mut u64,
    steps: &mut u64,
) -> u16
    ensures { leaves result screen.new events.new written.new steps.new ≡ turn_bytes table.now tokens.now (handing given answer) book screen.old events.old }
{
    if !is_book(book, screen) {
        return refuse(written, steps);
    }
    let place = left_word(book);
    let left = read_64(screen, place);
    let from = book as usize * BOOK_BYTES;
    let end = from + WALK_BYTES;
    let n = sst_paused(
        table,
        tokens,
        given,
        answer,
        left,
        &mut screen[from..end],
        events,
        written,
        steps,
    );
    let done = *steps;
    put_64(screen, place, left - done);
    n
}

// The parts of a walk, of bytes that are none as include/sst.h says

// 0 going on, 1 waiting, 2 stopped.
fn phase_number(p: Phase) -> u16
    ensures { result ≡ phase_in (view.phase_of p) }
{
    match p {
        Phase::Going => GOING,
        Phase::Waiting => WAITING,
        Phase::Stopped(_) => STOPPED,
    }
}

// The number of a stopped walk, 65535 of another.
fn reason_or_none(p: Phase) -> u16
    ensures { result ≡ reason_in (view.phase_of p) }
{
    match p {
        Phase::Going | Phase::Waiting => NO_REASON,
        Phase::Stopped(r) => u16::from(r),
    }
}

pub fn sst_phase(walk: &[u8]) -> u16
    ensures { result ≡ phase_number (form.walk_of walk.now) }
{
    match read_walk(walk) {
        Some(w) => phase_number(w.phase),
        None => NO_WALK,
    }
}

pub fn sst_reason(walk: &[u8]) -> u16
    ensures { result ≡ reason_or_none (form.walk_of walk.now) }
{
    match read_walk(walk) {
        Some(w) => reason_or_none(w.phase),
        None => NO_REASON,
    }
}

pub fn sst_location(walk: &[u8]) -> u16
    ensures { result ≡ location_or0 (form.walk_of walk.now) }
{
    match read_walk(walk) {
        Some(w) => w.at.location as u16,
        None => 0,
    }
}

pub fn sst_read(walk: &[u8]) -> u64
    ensures { result ≡ read_or0 (form.walk_of walk.now) }
{
    match read_walk(walk) {
        Some(w) => w.at.read,
        None => 0,
    }
}

pub fn sst_used(walk: &[u8]) -> u64
    ensures { result ≡ used_or0 (form.walk_of walk.now) }
{
    match read_walk(walk) {
        Some(w) => w.at.used,
        None => 0,
    }
}

pub fn sst_allowance(walk: &[u8]) -> u16
    ensures { result ≡ allowance_or0 (form.walk_of walk.now) }
{
    match read_walk(walk) {
        Some(w) => low_word(w.at.allowance),
        None => 0,
    }
}

fn flag(b: bool) -> u64
    ensures { result ≡ flag_of b }
{
    if b { 1 } else { 0 }
}

// The processor, on bytes and numbers alone.
pub fn sst_process(
    text: &[u8],
    table: &mut [u8],
    start: &mut u64,
    len: &mut u64,
    words: &mut u64,
    finishing: &mut u64,
    figure: &mut u64,
    check: &mut u64,
) -> u16
    ensures check_after { tells result start.new len.new words.new finishing.new figure.new check.new ≡ numbers_of (process text.now (count table.old)) (figure_of text.now (count table.old)) }
    ensures lent { table.new ≡ lent_bytes (process text.now (count table.old)) table.old }
{
    let a = translator::process(text, table);
    *start = a.start as u64;
    *len = a.len as u64;
    *words = a.words as u64;
    *finishing = flag(a.finishing);
    *figure = a.figure;
    *check = a.check as u64;
    a.number
}

// Table files

// A file's table is put into the lent one, if the loader takes it.
pub fn sst_load(file: &[u8], table: &mut [u8], words: &mut u64, verdict: &mut u64) -> u16
    ensures verdict_after { hands result words.new verdict.new ≡ files.numbers_of (files.load file.now (count table.old)) }
    ensures lent { table.new ≡ files.lent_bytes (files.load file.now (count table.old)) table.old }
{
    match loader::load(file, table) {
        Ok(loaded) => {
            *words = loaded.words as u64;
            *verdict = loaded.verdict as u64;
            0
        }
        Err(error) => {
            *words = 0;
            *verdict = 0;
            u16::from(error)
        }
    }
}

// The file of a table and a verdict is put into the lent buffer, if the loader would take it.
pub fn sst_write_file(table: &[u8], verdict: u64, file: &mut [u8], words: &mut u64) -> u16
    ensures value { result ≡ (files.numbers_of (files.store (words_of table.now) verdict (count file.old))).number }
    ensures words { words.new ≡ (files.numbers_of (files.store (words_of table.now) verdict (count file.old))).words }
    ensures lent { file.new ≡ files.lent_bytes (files.store (words_of table.now) verdict (count file.old)) file.old }
{
    match writer::write_file(table, verdict, file) {
        Ok(written) => {
            *words = written as u64;
            0
        }
        Err(error) => {
            *words = 0;
            u16::from(error)
        }
    }
}

// Whether a table is admitted for the publisher who holds the set.
pub fn sst_admit(table: &[u8], set: &[u8], location: &mut u64) -> u16
    ensures { rights.says result location.new ≡ rights.admit (table_of table.now) set.now }
{
    match admission::admits(table, set) {
        Ok(()) => {
            *location = 0;
            0
        }
        Err(denial) => {
            *location = admission::location_of(denial) as u64;
            u16::from(denial)
        }
    }
}

// A table file is loaded and its table admitted, on bytes and numbers alone.
pub fn sst_load_admitted(
    file: &[u8],
    set: &[u8],
    table: &mut [u8],
    words: &mut u64,
    verdict: &mut u64,
    location: &mut u64,
) -> u16
    ensures location_after { rights.tells result words.new verdict.new location.new ≡ rights.admit_loaded set.now (files.load file.now (count table.old)) }
    ensures lent { table.new ≡ files.lent_bytes (files.load file.now (count table.old)) table.old }
{
    match admission::load_admitted(file, set, table) {
        Ok(loaded) => {
            *words = loaded.words as u64;
            *verdict = loaded.verdict as u64;
            *location = 0;
            0
        }
        Err(AdmissionError::Denied(loaded, denial)) => {
            *words = loaded.words as u64;
            *verdict = loaded.verdict as u64;
            *location = admission::location_of(denial) as u64;
            u16::from(denial)
        }
        Err(AdmissionError::NotLoaded(error)) => {
            *words = 0;
            *verdict = 0;
            *location = 0;
            u16::from(error)
        }
    }
}

// The character filter, on bytes and numbers alone.
pub fn sst_filter(
    filter: &[u8],
    text: &[u8],
    tokens: &mut [u8],
    at: &mut u64,
    written: &mut u64,
) -> u16
    ensures written_after { filtering.tells result at.new written.new ≡ filtering.numbers_of (filtering.filter filter.now text.now (count tokens.old)) }
    ensures lent { tokens.new ≡ filtering.buffer_after (filtering.filter filter.now text.now (count tokens.old)) tokens.old }
{
    let (number, named, count) = match filter::fold(filter, text, tokens) {
        Ok(count) => (0, 0, count),
        Err(error) => (u16::from(error), filter::named(error), 0),
    };
    *at = named as u64;
    *written = count as u64;
    number
}
