// The processor: any text and a lent buffer to a table, a verdict and a figure, or to a number and a part of the text.
#![tactic(auto)]

ghost use Rattle.std.specs.Prelude.{◌≡◌, ℕ, ◌+◌, ◌≤◌, length};
ghost use Rattle.figure.specs.Told.{untold, figure_of};
ghost use Rattle.frontend.specs.Resolving.{IsRead};
ghost use Rattle.machine.specs.Bytes.{count};
ghost use Rattle.processor.specs.Process as means;
ghost use Rattle.processor.specs.Process.{refused};
ghost use Rattle.translator.specs.Answered.{Settles, Finishes, Translates, answered, fault_word};
ghost use Rattle.translator.specs.Measured.{IsTabled, Measures, as_told, FigureOf};

// The greatest figure there is.
const MOST_FIGURE: u64 = 4294967295;

// number 0: the table has `words` words, and the verdict is `finishing`. Else the number of the fault, and the part of the text at fault.
// Where the verdict is "finishing" `figure` is Q and `check` 0, or `check` is 47.
#[derive(Clone, Copy, Debug, PartialEq, Eq)]
pub struct Answer {
    pub number: u16,
    pub start: usize,
    pub len: usize,
    pub words: usize,
    pub finishing: bool,
    pub figure: u64,
    pub check: u16,
}

fn refusal(number: u16, start: usize, len: usize) -> Answer
    ensures { result ≡ answered (refused number (record { start = start; size = len })) untold }
{
    Answer {
        number,
        start,
        len,
        words: 0,
        finishing: false,
        figure: 0,
        check: 0,
    }
}

// A refusal: every lent word zero.
pub fn refuse(table: &mut [u8], number: u16, start: usize, len: usize) -> Answer
    ensures { Settles (refused number (record { start = start; size = len })) untold table.old table.new result }
{
    emitter::zero(table);
    refusal(number, start, len)
}

// No figure is told yet.
fn acceptance(words: usize, finishing: bool) -> Answer
    ensures { result ≡ record { number = 0; start = 0; len = 0; words = words; finishing = finishing; figure = 0; check = 0 } }
{
    Answer {
        number: 0,
        start: 0,
        len: 0,
        words,
        finishing,
        figure: 0,
        check: 0,
    }
}

// The figure Q, or 47 where there is none.
pub fn with_figure(a: Answer, figure: Option<u64>) -> Answer
    ensures { result ≡ record { number = a.number; start = a.start; len = a.len; words = a.words; finishing = a.finishing; figure = (as_told figure).figure; check = (as_told figure).number } }
{
    match figure {
        Some(q) => Answer {
            figure: q,
            check: 0,
            ..a
        },
        None => Answer {
            figure: 0,
            check: base::NO_FIGURE,
            ..a
        },
    }
}

// What the meter finds in a table whose rules start at these locations.
#[inline(never)]
fn measure(table: &[u8], starts: &[usize]) -> u64
    requires { IsTabled table.now starts.now }
    ensures { Measures table.now starts.now result }
{
    let mut called = [0u32; meter::ROWS];
    let mut rows = [0u32; meter::ROWS];
    meter::figure(table, starts, &mut called, &mut rows)
}

// The figure of a finishing program, from its table and its rules' starts, if it is one that can be told.
pub fn figure_of(table: &[u8], starts: &[usize]) -> Option<u64>
    requires { IsTabled table.now starts.now }
    ensures { FigureOf table.now starts.now result }
{
    let q = measure(table, starts);
    if MOST_FIGURE < q {
        return None;
    }
    Some(q)
}

// The table and the verdict of the program in the buffers, or 20. The spare room is written over.
#[inline(never)]
pub fn finish(
    size: usize,
    cells: &[u16],
    starts: &[u16],
    sorts: &[u8],
    b: frontend::Resolved,
    spare: &mut [u16],
    table: &mut [u8],
) -> Answer
    requires { 4224 ≤ length spare.old }
    ensures { Finishes size cells.now starts.now sorts.now b.rules b.cells table.old table.new result }
{
    if frontend::CELLS < b.cells {
        return refuse(table, base::TOO_SHORT, size, 0);
    }
    match emitter::emit(cells, sorts, b.rules, table) {
        Err(_) => refusal(base::TOO_SHORT, size, 0),
        Ok(words) => {
            let finishing = verdict::verdict(cells, starts, b.rules, spare);
            acceptance(words, finishing)
        }
    }
}

// An answer but for its figure, and how many rules were placed.
#[derive(Clone, Copy, Debug, PartialEq, Eq)]
struct Translated {
    answer: Answer,
    rules: usize,
}

// A text that the syntax pass has read, and its rules' locations. Once its rules are resolved the rows are spare room.
#[inline(never)]
fn translate(text: &[u8], table: &mut [u8], places: &mut [usize]) -> Translated
    requires { IsRead text.now × (length places.old ≡ 128) }
    ensures { Translates text.now table.old table.new places.new result.answer result.rules }
{
    let mut rows = [0u16; frontend::ROWS];
    let mut cells = [0u16; frontend::CELLS];
    let mut starts = [0u16; frontend::RULES];
    let mut sorts = [0u8; frontend::RULES];
    let b = match frontend::resolve(text, &mut rows, &mut cells, &mut starts, &mut sorts) {
        Ok(b) => b,
        Err(e) => {
            return Translated {
                answer: refuse(table, u16::from(e.fault), e.at, e.len),
                rules: 0,
            };
        }
    };
    let answer = finish(text.len(), &cells, &starts, &sorts, b, &mut rows, table);
    sizes::locate(&cells, &sorts, b.rules, places);
    Translated {
        answer,
        rules: b.rules,
    }
}

// The table, the verdict and the figure of a text, or the number and the part of its first fault. Every lent word is written.
// The figure's numbers take more room than all else here: they come once that is gone.
pub fn process(text: &[u8], table: &mut [u8]) -> Answer
    ensures { Settles (means.process text.now (count table.old)) (figure_of text.now (count table.old)) table.old table.new result }
{
    if let Err(e) = reader::check_syntax(text) {
        return refuse(table, u16::from(e.fault), e.at, e.len);
    }
    let mut places = [0usize; frontend::RULES];
    let t = translate(text, table, &mut places);
    if !t.answer.finishing {
        return t.answer;
    }
    let end = 2 * t.answer.words;
    let f = figure_of(&table[..end], &places[..t.rules]);
    with_figure(t.answer, f)
}

// The part of the text at fault.
pub fn fault_word<'a>(text: &'a [u8], answer: Answer) -> &'a [u8]
    ensures { result.now ≡ fault_word text.now answer }
{
    base::part(text, answer.start, answer.len)
}
