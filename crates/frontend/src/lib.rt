// The passes over a text that was read, up to the cells of its rules: for the processor and for the map of the rules.
#![tactic(auto)]

ghost use Rattle.std.specs.Prelude.{◌≡◌, ◌≤◌, length};
ghost use Rattle.frontend.specs.Resolving.{ResolvesRules, ResolvesRead};
ghost use Rattle.symbols.specs.Index.{Kept};

use base::Refusal;
use builder::Listed;
use collector::Collected;
use levels::Made;

// A text whose rules are resolved: the cells that its rules take, also those past the room for them; its rules, and how many of them are
// written; its declarations, the row of the first rule's, and where the rules are read again.
#[derive(Clone, Copy, Debug, PartialEq, Eq)]
pub struct Resolved {
    pub cells: usize,
    pub rules: usize,
    pub written: usize,
    pub declared: usize,
    pub first: usize,
    pub body: usize,
}

// The room that resolving a text takes: the numbers of its rows, their index and its uses of operators; its rules' cells; its rules.
pub const ROWS: usize = symbols::PAIR_SECTION + symbols::PAIR * base::RULES;

pub const CELLS: usize = cells::CELLS;

pub const RULES: usize = base::RULES;

// How many cells there are, also one above the room for them.
fn filled(count: usize) -> usize
    ensures low { result ≤ 4225 }
    ensures same { count ≤ 4225 → result ≡ count }
{
    count.min(CELLS + 1)
}

// The rules of a text whose declarations are in order: the pairs of its uses of operators, its own rules, then those made for the pairs.
fn resolve_rules(
    text: &[u8],
    rows: &mut [u16],
    c: Collected,
    cells: &mut [u16],
    starts: &mut [u16],
    sorts: &mut [u8],
) -> Result<Resolved, Refusal>
    requires { (length text.now ≤ 65535) × (length rows.old ≡ 6017) × Kept text.now rows.old c.count × (c.rules ≤ 512) × (c.at ≤ length text.now) × (length cells.old ≡ 4224) × (length starts.old ≡ 128) × (length sorts.old ≡ 128) }
    ensures { ResolvesRules text.now rows.old rows.new c cells.new starts.new sorts.new result }
{
    let q = maker::pairs(text, rows, c.count, c.rules, c.at);
    let first = c.rules;
    let listed = Listed { n: c.count, first };
    let b = builder::build(text, rows, listed, c.at, cells, starts, sorts)?;
    q?;
    let written = Made {
        count: filled(b.count),
        rules: b.rules,
    };
    let m = levels::make(text, rows, c.count, written, cells, starts, sorts);
    Ok(Resolved {
        cells: m.count,
        rules: m.rules,
        written: b.rules,
        declared: c.count,
        first: c.rules,
        body: c.at,
    })
}

// A text that the syntax pass has read, up to its rules' cells: its declarations into rows, then its rules into cells.
#[inline(never)]
pub fn resolve(
    text: &[u8],
    rows: &mut [u16],
    cells: &mut [u16],
    starts: &mut [u16],
    sorts: &mut [u8],
) -> Result<Resolved, Refusal>
    requires { (length text.now ≤ 65535) × (length rows.old ≡ 6017) × (length cells.old ≡ 4224) × (length starts.old ≡ 128) × (length sorts.old ≡ 128) }
    ensures { ResolvesRead text.now rows.new cells.new starts.new sorts.new result }
{
    let c = collector::collect(text, rows);
    symbols::index(text, rows, c.count);
    declarer::check_declarations(text, rows, c.count)?;
    resolve_rules(text, rows, c, cells, starts, sorts)
}
