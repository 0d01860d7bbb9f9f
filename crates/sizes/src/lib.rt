// Where each rule of a program stands in its table, from the program's cells, without the table.
// Nothing is asked of the cells: on any cells each function ends and keeps to its bounds.
#![tactic(auto)]

ghost use Rattle.std.specs.Prelude.{◌≡◌, ℕ, ◌+◌, ◌-◌, ◌<◌, ◌≤◌, length, set};
ghost use Rattle.sizes.specs.Heads.{cells_of, words_of, open_after};
ghost use Rattle.sizes.specs.Located.{Room, Moved, Scanned, Locates};

use base::cell;
use cells::sort_at;

// A place in the cells and a count of words.
#[derive(Clone, Copy, Debug, PartialEq, Eq)]
pub struct Spot {
    pub p: usize,
    pub at: usize,
}

const PAST: usize = cells::PAST as usize;

// The cells, the words and the open lists after a construct's head, by its first cell.
const CELLS: [u8; PAST] = [1, 1, 1, 2, 1, 2, 2, 1, 2, 1, 2, 2, 1, 1, 1];

const WORDS: [u8; PAST] = [0, 2, 2, 2, 1, 2, 2, 3, 2, 1, 3, 5, 1, 0, 4];

fn cells_of(k: u16) -> usize
    ensures { result ≡ cells_of k }
{
    match k {
        ..cells::PAST => usize::from(CELLS[usize::from(k)]),
        cells::PAST..cells::ALTERNATIVE => 1,
        cells::ALTERNATIVE..cells::UPDATE => usize::from(k - cells::PREFIX),
        cells::UPDATE..cells::UPDATE_WITH => 1,
        cells::UPDATE_WITH..cells::ASK => 2,
        cells::ASK..cells::ASK_WITH => 1,
        _ => 2,
    }
}

fn words_of(k: u16) -> usize
    ensures { result ≡ words_of k }
{
    match k {
        ..cells::PAST => usize::from(WORDS[usize::from(k)]),
        cells::PAST..cells::ALTERNATIVE => 0,
        cells::ALTERNATIVE..cells::UPDATE => 2 * usize::from(k - cells::PREFIX),
        cells::UPDATE..cells::UPDATE_WITH => 1,
        cells::UPDATE_WITH..cells::ASK => 3,
        cells::ASK..cells::ASK_WITH => 4,
        _ => 6,
    }
}

fn open_after(k: u16, d: usize) -> usize
    requires { (0 < d) × (d < 2000000000) }
    ensures { result ≡ open_after k d }
{
    match k {
        cells::END => d - 1,
        cells::CYCLE | cells::OTHERWISE => d + 1,
        cells::ALTERNATIVE..cells::UPDATE => d + 1,
        _ => d,
    }
}

// The words of the list of actions at p, and where it ends: one pass over its cells.
fn scan(cells: &[u16], p: usize) -> Spot
    requires { Room cells.now p 0 }
    ensures scanned { Scanned cells.now p result.p result.at }
    ensures moved { Moved cells.now p 0 result.p result.at }
{
    let mut q = p;
    let mut w = 0;
    let mut d = 1;
    // no range: a cell says how deep the next stands
    while 0 < d {
        let k = cell(cells, q);
        d = open_after(k, d);
        w += words_of(k);
        q += cells_of(k);
    }
    Spot {
        p: q.min(cells.len()),
        at: w,
    }
}

fn put_start(starts: &mut [usize], r: usize, l: usize)
    ensures { starts.new ≡ set starts.old r l }
{
    // an index: of `get_mut` it is not known that the row stays where there is no place
    if r < starts.len() {
        starts[r] = l;
    }
}

// The words of a rule's end.
fn end_size(sort: u8) -> usize
    ensures { (sort ≡ 0 → result ≡ 1) × (sort ≡ 1 → result ≡ 0) × (result ≤ 1) }
{
    if sort == cells::PROCEDURE_RULE { 1 } else { 0 }
}

// Each rule's location, counted from 1, and the words of all of them; 0 for more than 128 rules or 65,536 cells.
pub fn locate(cells: &[u16], sorts: &[u8], rules: usize, starts: &mut [usize]) -> usize
    ensures { Locates cells.now sorts.now rules starts.new result }
{
    if base::WORD_VALUES < cells.len() || base::RULES < rules {
        return 0;
    }
    let mut q = 0;
    let mut w = 0;
    for r in 0..rules {
        put_start(starts, r, w + 1);
        let s = scan(cells, q);
        w += s.at + end_size(sort_at(sorts, r));
        q = s.p;
    }
    w
}
