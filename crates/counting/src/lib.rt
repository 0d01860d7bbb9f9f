// Figures over a shelf of books (include/sst.h): a book's steps counted at their locations, over the walker's step, and the figures as bytes.
// Nothing of this is in the walker's own loop.
#![tactic(auto)]

ghost use Rattle.std.specs.Prelude.{true, ◌≡◌, ◌+◌, ◌*◌, ◌-◌, ◌/◌, ◌%◌, ◌<◌, ◌≤◌, ◌^◌, min, eqb, ltb, length, take, drop, get_or, IfOk, IfErr, sum as total_of, if◌then◌else◌};
ghost use Rattle.std.proofs.Math.Option.{none};
ghost use Rattle.base.specs.Common.{same};
ghost use Rattle.machine.specs.Bytes.{count, words_of, bytes_of};
ghost use Rattle.figures.specs.Figures as sums;
ghost use Rattle.figures.specs.Figures.{sum, bumps, bits_of, packed};
ghost use Rattle.figures.specs.Spans as spans;
ghost use Rattle.figures.specs.Form as form;
ghost use Rattle.figures.specs.Form.{number_at, numbers_at, figures_named, figures_of};
ghost use Rattle.counting.specs.Counting.{book_visits, book_of, Inside, told_of, numbers_told, numbers_of, past_of, error_number, Named, gives, reports, totals};
ghost use Rattle.counting.specs.declared.FiguresError.TheVariants.{NoFigures};
ghost use Rattle.walker.specs.Shape.{put_event, number_of, ending_number};

use machine::EVENT_WORDS;
use walker::{Ending, Event, Next, Reason, Terms};

// Figures as bytes (docs/LAYOUT.md): a count for each location, the words of their bits, books, total.
const LOCATIONS: usize = base::TABLE_WORDS;

const BITS: usize = 64;

const BIT_WORDS: usize = LOCATIONS / BITS;

const BITS_NUMBER: usize = LOCATIONS;

const BOOKS_NUMBER: usize = BITS_NUMBER + BIT_WORDS;

const TOTAL_NUMBER: usize = BOOKS_NUMBER + 1;

const NUMBERS: usize = TOTAL_NUMBER + 1;

const FIGURES_BYTES: usize = 2 * buffers::NUMBER_WORDS * NUMBERS;

// A rule's row, as the map of a text's rules has it: three numbers.
const ROW_BYTES: usize = 24;

const GREATEST: u64 = u64::MAX;

// Why figures tell nothing: bytes are none, or a number would pass 64 bits.
#[derive(Clone, Copy, Debug, PartialEq, Eq)]
pub enum FiguresError {
    NoFigures,
    Past,
}

// The number that C is told of it.
impl From<FiguresError> for u16 {
    ghost from_gives = { λ error n. n ≡ error_number error };

    fn from(error: FiguresError) -> u16 {
        match error {
            FiguresError::NoFigures => base::REFUSED,
            FiguresError::Past => base::PAST,
        }
    }
}

// What a book's call tells: how it ended, the events written, the steps done.
#[derive(Clone, Copy, Debug, PartialEq, Eq)]
pub struct Told {
    pub ending: Ending,
    pub events: u64,
    pub steps: u64,
}

// What figures say of the whole shelf.
#[derive(Clone, Copy, Debug, PartialEq, Eq)]
pub struct Report {
    pub books: u64,
    pub total: u64,
    pub covered: u64,
    pub mean: u64,
    pub rest: u64,
}

// A book's call: its limits, and whether it writes events and counts or only measures.
#[derive(Clone, Copy, Debug, PartialEq, Eq)]
struct Book {
    budget: u64,
    allowance: u16,
    writes: bool,
}

fn ended(ending: Ending, events: usize, steps: u64) -> Told
    ensures { numbers_told result ≡ told_of (ending_number ending) events steps }
{
    Told {
        ending,
        events: events as u64,
        steps,
    }
}

// A book's call

// One execution more of the location l, where a call writes.
fn bump(counts: &mut [u64], l: usize, writes: bool)
    requires { (length counts.old ≡ 4096) × (Inside l × (writes ≡ true → get_or counts.old (l - 1) 0 + 1 < 2 ^ 64)) }
    ensures { counts.new ≡ (if writes then sums.bump counts.old l else counts.old) }
{
    // 0 or 1 is added: no test in the loop
    counts[l - 1] += u64::from(writes);
}

// The event e at word i, where a call writes.
fn tell(out: &mut [u8], i: usize, e: Event, writes: bool)
    requires { i + 3 ≤ count out.old }
    ensures { out.new ≡ (if writes then put_event out.old i e else out.old) }
{
    if writes {
        walker::put_event(out, i, e);
    }
}

// A stop is a step too: it is counted, and ends the call.
fn stopped(
    why: Reason,
    counts: &mut [u64],
    l: usize,
    writes: bool,
    events: usize,
    steps: u64,
) -> Told
    requires { (length counts.old ≡ 4096) × (Inside l × (writes ≡ true → get_or counts.old (l - 1) 0 + 1 < 2 ^ 64)) }
    ensures value { numbers_told result ≡ told_of (number_of why) events steps }
    ensures counts_after { counts.new ≡ (if writes then sums.bump counts.old l else counts.old) }
{
    bump(counts, l, writes);
    ended(Ending::Stopped(why), events, steps)
}

// A whole call from a fresh walk, its steps counted at their locations; or only measured, and then nothing is written. Room is words left for events.
// A whole walk hands nothing out, so that it does not wait.
fn count_book(
    table: &[u8],
    tokens: &[u8],
    answers: &[u8],
    b: Book,
    out: &mut [u8],
    counts: &mut [u64],
) -> Told
    requires { (length counts.old ≡ 4096) × (b.writes ≡ true → sum counts.old + length (book_visits table.now tokens.now answers.now b.budget b.allowance (count out.old)) < 2 ^ 64) }
    ensures value { numbers_told result ≡ told_of (book_of table.now tokens.now answers.now b.budget b.allowance out.old).number (book_of table.now tokens.now answers.now b.budget b.allowance out.old).events (book_of table.now tokens.now answers.now b.budget b.allowance out.old).steps }
    ensures out_after { out.new ≡ (if b.writes then (book_of table.now tokens.now answers.now b.budget b.allowance out.old).out else out.old) }
    ensures counts_after { counts.new ≡ (if b.writes then bumps counts.old (book_visits table.now tokens.now answers.now b.budget b.allowance (count out.old)) else counts.old) }
{
    let mut at = walker::fresh(b.allowance);
    let mut returns = [0u16; base::PENDING];
    let mut events: usize = 0;
    let mut room = machine::count_words(out);
    let known = machine::LENGTHS;
    for done in 0..b.budget {
        let here = at.location;
        let terms = Terms { room, pause: false };
        let x = at.next(&known, &returns, table, tokens, answers, terms);
        let next = done + 1;
        match x {
            Next::Full => return ended(Ending::Full, events, done),
            Next::Outside => return ended(Ending::Stopped(Reason::Outside), events, done),
            Next::Stop(why) => return stopped(why, counts, here, b.writes, events, next),
            Next::On(q) => at = q,
            Next::Tells(q, e) => {
                tell(out, EVENT_WORDS * events, e, b.writes);
                at = q;
                events += 1;
                room -= EVENT_WORDS;
            }
            Next::Push(q, back) => at = walker::hold(&mut returns, q, back),
            Next::Waits(_, _) => return ended(Ending::Waits, events, next),
        }
        bump(counts, here, b.writes);
    }
    ended(Ending::Spent, events, b.budget)
}

// Figures as bytes

// Number i, from 0.
fn number_at(s: &[u8], i: usize) -> u64
    requires { 8 * i + 8 ≤ length s.now }
    ensures { result ≡ number_at (words_of s.now) i }
{
    buffers::read_64(s, buffers::NUMBER_WORDS * i)
}

// The counts, into a row that is lent: handed back, an array so large would be copied.
fn read_counts(s: &[u8], counts: &mut [u64])
    requires { (length s.now ≡ 33296) × (length counts.old ≡ 4096) }
    ensures { counts.new ≡ numbers_at (words_of s.now) 0 4096 }
{
    for i in 0..LOCATIONS {
        counts[i] = number_at(s, i);
    }
}

// 1 for a location that was executed.
fn flag(c: u64) -> u64
    ensures { (result ≡ sums.flag c) × (result < 2) }
{
    u64::from(c != 0)
}

// Word j of the bits: those of 64 locations, the first lowest.
fn bits_of(counts: &[u64], j: usize) -> u64
    requires { (length counts.now ≡ 4096) × (j < 64) }
    ensures { result ≡ packed (take 64 (drop (j * 64) counts.now)) }
{
    let mut w: u64 = 0;
    for i in (0..BITS).rev() {
        w = w * 2 + flag(counts[j * BITS + i]);
    }
    w
}

// Whether the bits are those of the counts.
fn covers(s: &[u8], counts: &[u64]) -> bool
    requires { (length s.now ≡ 33296) × (length counts.now ≡ 4096) }
    ensures { result ≡ same (numbers_at (words_of s.now) 4096 64) (bits_of 64 counts.now) }
{
    for j in 0..BIT_WORDS {
        if number_at(s, BITS_NUMBER + j) != bits_of(counts, j) {
            return false;
        }
    }
    true
}

// Whether the counts add up to total: what they leave of it, so that no sum passes 64 bits.
fn adds_up(counts: &[u64], total: u64) -> bool
    ensures { result ≡ eqb total (sum counts.now) }
{
    let mut left = total;
    for &count in counts {
        if left < count {
            return false;
        }
        left -= count;
    }
    left == 0
}

// Whether the parts of figures fit together.
fn is_sound(s: &[u8], counts: &[u64]) -> bool
    requires { (length s.now ≡ 33296) × (counts.now ≡ numbers_at (words_of s.now) 0 4096) }
    ensures { result ≡ sums.sound (figures_named (words_of s.now)) }
{
    let books = number_at(s, BOOKS_NUMBER);
    let total = number_at(s, TOTAL_NUMBER);
    (books != 0 || total == 0) && covers(s, counts) && adds_up(counts, total)
}

// What sound figures say beside their counts: the books added, and all their steps.
#[derive(Clone, Copy, Debug, PartialEq, Eq)]
struct Sums {
    books: u64,
    total: u64,
}

// The counts of figures, into a row that is lent, and their sums.
fn read_figures(figures: &[u8], counts: &mut [u64]) -> Result<Sums, FiguresError>
    requires { length counts.old ≡ 4096 }
    ensures named { IfOk result (Named figures.now counts.new) }
    ensures refused { IfErr result (λ e. (e ≡ NoFigures) × (figures_of figures.now ≡ none)) }
{
    if figures.len() != FIGURES_BYTES {
        return Err(FiguresError::NoFigures);
    }
    read_counts(figures, counts);
    if !is_sound(figures, counts) {
        return Err(FiguresError::NoFigures);
    }
    Ok(Sums {
        books: number_at(figures, BOOKS_NUMBER),
        total: number_at(figures, TOTAL_NUMBER),
    })
}

// Number i of figures with these counts, their bits, books and total.
fn figure(counts: &[u64], books: u64, total: u64, i: usize) -> u64
    requires { (length counts.now ≡ 4096) × (i < 4162) }
    ensures { result ≡ get_or (numbers_of counts.now books total) i 0 }
{
    if i < BITS_NUMBER {
        counts[i]
    } else if i < BOOKS_NUMBER {
        bits_of(counts, i - BITS_NUMBER)
    } else if i < TOTAL_NUMBER {
        books
    } else {
        total
    }
}

fn put_figures(out: &mut [u8], counts: &[u64], books: u64, total: u64)
    requires { (length out.old ≡ 33296) × (length counts.now ≡ 4096) }
    ensures { out.new ≡ bytes_of (form.number_words (numbers_of counts.now books total)) }
{
    for i in 0..NUMBERS {
        buffers::put_number(out, i, figure(counts, books, total, i));
    }
}

// The ones of the bits.
fn covered(s: &[u8]) -> u64
    requires { length s.now ≡ 33296 }
    ensures { result ≡ sums.covered (numbers_at (words_of s.now) 4096 64) }
{
    let mut n: u64 = 0;
    for j in 0..BIT_WORDS {
        n += u64::from(number_at(s, BITS_NUMBER + j).count_ones());
    }
    n
}

// Adding a book

// Whether a book's steps pass those left of 64 bits. Where its budget does not tell, it is measured, and nothing is written.
fn passes(
    table: &[u8],
    tokens: &[u8],
    answers: &[u8],
    b: Book,
    left: u64,
    events: &mut [u8],
    counts: &mut [u64],
) -> bool
    requires { length counts.old ≡ 4096 }
    ensures value { result ≡ past_of (book_of table.now tokens.now answers.now b.budget b.allowance events.old).steps b.budget left }
    ensures events_unchanged { events.new ≡ events.old }
    ensures counts_unchanged { counts.new ≡ counts.old }
{
    if b.budget <= left {
        return false;
    }
    let measured = Book { writes: false, ..b };
    let m = count_book(table, tokens, answers, measured, events, counts);
    left < m.steps
}

// A book added to figures by a whole call from a fresh walk. With an error nothing is written.
pub fn add_book(
    table: &[u8],
    tokens: &[u8],
    answers: &[u8],
    budget: u64,
    allowance: u16,
    figures: &mut [u8],
    events: &mut [u8],
) -> Result<Told, FiguresError>
    ensures { gives result figures.new events.new ≡ form.add_bytes table.now tokens.now answers.now budget allowance figures.old events.old }
{
    let mut counts = [0u64; LOCATIONS];
    let sums = read_figures(figures, &mut counts)?;
    if sums.books == GREATEST {
        return Err(FiguresError::Past);
    }
    let b = Book {
        budget,
        allowance,
        writes: true,
    };
    let left = GREATEST - sums.total;
    if passes(table, tokens, answers, b, left, events, &mut counts) {
        return Err(FiguresError::Past);
    }
    let told = count_book(table, tokens, answers, b, events, &mut counts);
    put_figures(figures, &counts, sums.books + 1, sums.total + told.steps);
    Ok(told)
}

// Mean steps a book, whole part and remainder: both 0 for an empty shelf.
fn mean_of(total: u64, books: u64) -> u64
    ensures { result ≡ (if eqb books 0 then 0 else total / books) }
{
    total.checked_div(books).unwrap_or(0)
}

fn rest_of(total: u64, books: u64) -> u64
    ensures { result ≡ (if eqb books 0 then 0 else total % books) }
{
    total.checked_rem(books).unwrap_or(0)
}

// What figures say of the whole shelf.
pub fn shelf_report(figures: &[u8]) -> Result<Report, FiguresError>
    ensures { reports result ≡ form.shelf_bytes figures.now }
{
    let mut counts = [0u64; LOCATIONS];
    let sums = read_figures(figures, &mut counts)?;
    Ok(Report {
        books: sums.books,
        total: sums.total,
        covered: covered(figures),
        mean: mean_of(sums.total, sums.books),
        rest: rest_of(sums.total, sums.books),
    })
}

// Rule by rule

// The index of a location's count, at most the number of counts; location 0 has none.
fn count_index(location: u64) -> usize
    ensures { result ≡ min (location - 1) 4096 }
{
    location.saturating_sub(1).min(LOCATIONS as u64) as usize
}

// The sum of some counts.
fn sum_of(counts: &[u64]) -> u64
    requires { total_of counts.now < 2 ^ 64 }
    ensures { result ≡ total_of counts.now }
{
    counts.iter().sum()
}

// The executions of the locations from `from` on, up to `to` and without it: no more than all of them.
fn span(counts: &[u64], from: u64, to: u64) -> u64
    requires { (length counts.now ≡ 4096) × (sum counts.now < 2 ^ 64) }
    ensures { result ≡ spans.span_total from to counts.now }
{
    let start = count_index(from);
    let end = count_index(to);
    sum_of(&counts[start.min(end)..end])
}

// The executions of one rule: its words begin at `from`, those of the next at `to`.
pub fn rule_total(figures: &[u8], from: u64, to: u64) -> Result<u64, FiguresError>
    ensures { totals result ≡ spans.span_bytes figures.now from to }
{
    let mut counts = [0u64; LOCATIONS];
    read_figures(figures, &mut counts)?;
    Ok(span(&counts, from, to))
}

// The location of row i of `rows`, of n in all; `end` behind the last.
fn location(rows: &[u8], n: usize, i: usize, end: u64) -> u64
    requires { (24 * n ≤ length rows.now) × (i ≤ n) }
    ensures { result ≡ (if ltb i n then spans.location_at (words_of rows.now) i else end) }
{
    if i < n {
        number_at(rows, 3 * i + 2)
    } else {
        end
    }
}

// The executions of n rules together, where they stay within 64 bits.
fn together(counts: &[u64], rows: &[u8], n: usize, end: u64) -> Result<u64, FiguresError>
    requires { (length counts.now ≡ 4096) × ((sum counts.now < 2 ^ 64) × (24 * n ≤ length rows.now)) }
    ensures { totals result ≡ spans.bounded (sum (spans.span_totals (spans.locations_at (words_of rows.now) 0 n) end counts.now)) }
{
    let mut all: u64 = 0;
    for i in 0..n {
        let from = location(rows, n, i, end);
        let to = location(rows, n, i + 1, end);
        let more = span(counts, from, to);
        if GREATEST - all < more {
            return Err(FiguresError::Past);
        }
        all += more;
    }
    Ok(all)
}

// The executions of all rules together, by their rows; the last one's words end before `end`.
pub fn rules_total(figures: &[u8], rows: &[u8], end: u64) -> Result<u64, FiguresError>
    ensures { totals result ≡ spans.together_bytes figures.now rows.now end }
{
    let mut counts = [0u64; LOCATIONS];
    read_figures(figures, &mut counts)?;
    together(&counts, rows, rows.len() / ROW_BYTES, end)
}
