// The C entries of the release desk (include/sst-desk.h): figures over a shelf of books, and where a text's rules stand. They are no part of the
// firmware's library: a second caller of the walker's step would make its own loop slower.
#![tactic(auto)]

ghost use Rattle.std.specs.Prelude.{◌≡◌};
ghost use Rattle.mapping.specs.Mapping as mapping;
ghost use Rattle.figures.specs.Form as figuring;
ghost use Rattle.figures.specs.Spans as spans;
ghost use Rattle.machine.specs.Bytes.{count};
ghost use Rattle.parts.specs.Form.{make_object};
ghost use Rattle.separate.specs.Answers as separate;
ghost use Rattle.desk.specs.Leaves.{adds, reports};
ghost use Rattle.desk.specs.Parted.{makes, flag_of, tells, Joins};

// The map of a text's rules, on bytes and numbers alone.
#[unsafe(no_mangle)]
pub extern "C" fn sst_rules(text: &[u8], rows: &mut [u8], rules: &mut u64) -> u16
    ensures rules_after { mapping.tells result rules.new ≡ mapping.numbers_of (mapping.map_rules text.now (mapping.room_in rows.old)) }
    ensures lent { rows.new ≡ mapping.lent_rows (mapping.map_rules text.now (mapping.room_in rows.old)) rows.old }
{
    let a = mapper::map_rules(text, rows);
    *rules = a.rules as u64;
    a.number
}

// A book is added to figures, by a whole call from a fresh walk.
#[unsafe(no_mangle)]
pub extern "C" fn sst_add_book(
    table: &[u8],
    tokens: &[u8],
    answers: &[u8],
    budget: u64,
    allowance: u16,
    figures: &mut [u8],
    events: &mut [u8],
    written: &mut u64,
    steps: &mut u64,
) -> u16
    ensures { adds result figures.new events.new written.new steps.new ≡ figuring.add_bytes table.now tokens.now answers.now budget allowance figures.old events.old }
{
    match counting::add_book(table, tokens, answers, budget, allowance, figures, events) {
        Ok(told) => {
            *written = told.events;
            *steps = told.steps;
            u16::from(told.ending)
        }
        Err(error) => {
            *written = 0;
            *steps = 0;
            u16::from(error)
        }
    }
}

// What figures say of the whole shelf.
#[unsafe(no_mangle)]
pub extern "C" fn sst_shelf(
    figures: &[u8],
    books: &mut u64,
    total: &mut u64,
    covered: &mut u64,
    mean: &mut u64,
    rest: &mut u64,
) -> u16
    ensures { reports result books.new total.new covered.new mean.new rest.new ≡ figuring.shelf_bytes figures.now }
{
    match counting::shelf_report(figures) {
        Ok(report) => {
            *books = report.books;
            *total = report.total;
            *covered = report.covered;
            *mean = report.mean;
            *rest = report.rest;
            0
        }
        Err(error) => {
            *books = 0;
            *total = 0;
            *covered = 0;
            *mean = 0;
            *rest = 0;
            u16::from(error)
        }
    }
}

// The executions of one rule, whose words begin at location `from` and those of the next at `to`.
#[unsafe(no_mangle)]
pub extern "C" fn sst_rule_total(figures: &[u8], from: u64, to: u64, total: &mut u64) -> u16
    ensures { spans.tells result total.new ≡ spans.span_bytes figures.now from to }
{
    match counting::rule_total(figures, from, to) {
        Ok(executions) => {
            *total = executions;
            0
        }
        Err(error) => {
            *total = 0;
            u16::from(error)
        }
    }
}

// The executions of all rules together, by the rows of sst_rules; `end` is the location behind the table's last word.
#[unsafe(no_mangle)]
pub extern "C" fn sst_rules_total(figures: &[u8], rows: &[u8], end: u64, total: &mut u64) -> u16
    ensures { spans.tells result total.new ≡ spans.together_bytes figures.now rows.now end }
{
    match counting::rules_total(figures, rows, end) {
        Ok(executions) => {
            *total = executions;
            0
        }
        Err(error) => {
            *total = 0;
            u16::from(error)
        }
    }
}

// Parts

// "finishing" as a number.
fn flag(b: bool) -> u64
    ensures { result ≡ flag_of b }
{
    if b { 1 } else { 0 }
}

// A part translated by itself with its common part, on bytes and numbers alone.
#[unsafe(no_mangle)]
pub extern "C" fn sst_part(
    common: &[u8],
    part: &[u8],
    object: &mut [u8],
    text: &mut u64,
    start: &mut u64,
    len: &mut u64,
    words: &mut u64,
) -> u16
    ensures words_after { makes result text.new start.new len.new words.new ≡ separate.answered (make_object common.now part.now (count object.old)) }
    ensures lent { object.new ≡ separate.lent_bytes (make_object common.now part.now (count object.old)) object.old }
{
    let m = separate::make_object(common, part, object);
    *text = m.text as u64;
    *start = m.start as u64;
    *len = m.len as u64;
    *words = m.words as u64;
    m.number
}

// Objects of one common part, linked.
#[unsafe(no_mangle)]
pub extern "C" fn sst_link(
    common: &[u8],
    objects: &[u8],
    table: &mut [u8],
    text: &mut u64,
    start: &mut u64,
    len: &mut u64,
    words: &mut u64,
    finishing: &mut u64,
    figure: &mut u64,
    check: &mut u64,
) -> u16
    ensures { Joins common.now objects.now table.old table.new (tells result text.new start.new len.new words.new finishing.new figure.new check.new) }
{
    let a = linking::link(common, objects, table);
    *text = a.text as u64;
    *start = a.start as u64;
    *len = a.len as u64;
    *words = a.words as u64;
    *finishing = flag(a.finishing);
    *figure = a.figure;
    *check = a.check as u64;
    a.number
}
