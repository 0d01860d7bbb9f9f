// A text made ready for carrying a walk: its table, and a row for each of its rules with its location and its name.
#![tactic(auto)]

ghost use Rattle.std.specs.Prelude.{◌≡◌, ◌≤◌, length, set};
ghost use Rattle.frontend.specs.Resolving.{IsRead};
ghost use Rattle.processor.specs.Process.{process};
ghost use Rattle.sources.specs.Prepared.{InBuffers, Reads, Writes, Prepares};

use carrier::{COUNT, SIZE};
use frontend::Resolved;

// number 0: the table and the rows are there. Else the number of the text's first fault, and the part of the text at fault.
#[derive(Clone, Copy)]
pub struct Prepared {
    pub number: u16,
    pub start: usize,
    pub len: usize,
}

fn put_counts(sheet: &mut [u16], rules: usize, size: usize)
    requires { (length sheet.old ≡ 770) × (rules ≤ 128) × (size ≤ 4096) }
    ensures { sheet.new ≡ set (set sheet.old 768 rules) 769 size }
{
    sheet[COUNT] = rules as u16;
    sheet[SIZE] = size as u16;
}

// "for over-long text and 20 it is the empty part at the end"
fn too_short(text: &[u8]) -> Prepared
    ensures { (result.number ≡ 20) × (result.start ≡ length text.now) × (result.len ≡ 0) }
{
    Prepared {
        number: base::TOO_SHORT,
        start: text.len(),
        len: 0,
    }
}

// The rows of the program in the buffers, or 20.
fn put_sheet(
    text: &[u8],
    rows: &[u16],
    b: Resolved,
    cells: &[u16],
    sorts: &[u8],
    sheet: &mut [u16],
) -> Prepared
    requires { InBuffers text.now rows.now b cells.now sorts.now × (length sheet.old ≡ 770) }
    ensures { Reads text.now cells.now sorts.now sheet.new result.number result.start result.len }
{
    let mut places = [0usize; frontend::RULES];
    let size = sizes::locate(cells, sorts, b.rules, &mut places);
    if base::TABLE_WORDS < size {
        return too_short(text);
    }
    rulerows::fill(text, rows, b, &places, sheet);
    put_counts(sheet, b.rules, size);
    Prepared {
        number: 0,
        start: 0,
        len: 0,
    }
}

// The cells and the rows of a text that the syntax pass has read, or the number and the part of its first fault.
fn resolve_rules(
    text: &[u8],
    rows: &mut [u16],
    cells: &mut [u16],
    sorts: &mut [u8],
    sheet: &mut [u16],
) -> Prepared
    requires { IsRead text.now × (length rows.old ≡ 6017) × (length cells.old ≡ 4224) × (length sorts.old ≡ 128) × (length sheet.old ≡ 770) }
    ensures { Reads text.now cells.new sorts.new sheet.new result.number result.start result.len }
{
    let mut starts = [0u16; frontend::RULES];
    let b = match frontend::resolve(text, rows, cells, &mut starts, sorts) {
        Ok(b) => b,
        Err(e) => {
            return Prepared {
                number: u16::from(e.fault),
                start: e.at,
                len: e.len,
            };
        }
    };
    if frontend::CELLS < b.cells {
        return too_short(text);
    }
    put_sheet(text, rows, b, cells, sorts, sheet)
}

// The cells and the rows of a text's rules, or the number and the part of its first fault. The rows of its declarations are not needed behind this,
// nor is a table needed before: its room can be theirs.
pub fn read_rules(
    text: &[u8],
    rows: &mut [u16],
    cells: &mut [u16],
    sorts: &mut [u8],
    sheet: &mut [u16],
) -> Prepared
    requires { (length rows.old ≡ 6017) × (length cells.old ≡ 4224) × (length sorts.old ≡ 128) × (length sheet.old ≡ 770) }
    ensures { Reads text.now cells.new sorts.new sheet.new result.number result.start result.len }
{
    if let Err(e) = reader::check_syntax(text) {
        return Prepared {
            number: u16::from(e.fault),
            start: e.at,
            len: e.len,
        };
    }
    resolve_rules(text, rows, cells, sorts, sheet)
}

// The table of the rules that were read.
pub fn write_table(cells: &[u16], sorts: &[u8], sheet: &[u16], table: &mut [u8])
    requires { length table.old ≡ 8192 }
    ensures { Writes cells.now sorts.now sheet.now table.new }
{
    // what was read fits
    let _size = emitter::emit(cells, sorts, base::number(sheet, COUNT), table);
}

// The table and the rows of a text, or the number and the part of its first fault.
pub fn prepare(text: &[u8], table: &mut [u8], sheet: &mut [u16]) -> Prepared
    requires { (length table.old ≡ 8192) × (length sheet.old ≡ 770) }
    ensures { Prepares text.now table.new sheet.new result.number result.start result.len (process text.now 4096) }
{
    let mut rows = [0u16; frontend::ROWS];
    let mut cells = [0u16; frontend::CELLS];
    let mut sorts = [0u8; frontend::RULES];
    let p = read_rules(text, &mut rows, &mut cells, &mut sorts, sheet);
    if p.number != 0 {
        return p;
    }
    write_table(&cells, &sorts, sheet, table);
    p
}
