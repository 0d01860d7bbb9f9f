// The loader: which locations of a table can be reached, whether one of them gives 37, and table files.
#![tactic(auto)]

ghost use Rattle.std.specs.Prelude.{◌≡◌, true, [], ◌∷◌, ◌+◌, ◌*◌, ◌-◌, ◌<◌, ◌≤◌, length, drop, replicate};
ghost use Rattle.std.proofs.Math.Option.{some};
ghost use Rattle.machine.specs.Bytes.{count, words_of, table_of, bytes_of, over};
ghost use Rattle.machine.specs.Decode.{fetch};
ghost use Rattle.loading.specs.File.{table_named, is_file, load};
ghost use Rattle.loading.specs.Reading.{formed};
ghost use Rattle.loading.specs.Taking.{labelled, taken};
ghost use Rattle.loader.specs.Marking.{work, mark_of, marks_of, choice_of, visit_of, Kept, Marked, Lies, Ready, Holds, Takes, Tells};
ghost use Rattle.loader.specs.Passing.{Passed, Through, Piece, Whole};
ghost use Rattle.loader.specs.Records.{full_at, last_at, size_named, error_number, Loads};

use base::TABLE_WORDS;

// Choice tables are gone through in blocks of 16 entries, each once, so that tables which many choices share or which overlap cost no more than their
// entries. A block begins at a location that its words divide, or one behind it.
const BLOCK: usize = 16;

const BLOCK_WORDS: usize = 32;

const BLOCKS: usize = 256;

// The marks of a file's records, `HD` and `TW`, high byte first.
pub const HEAD_MARK: u16 = 18500;

pub const TABLE_MARK: u16 = 21591;

// The words behind mark and count of the head, of a full record, and of mark, count and words of one.
pub const HEAD_WORDS: u16 = 2;

pub const RECORD_WORDS: usize = 256;

pub const RECORD: usize = 258;

// Where the count stands behind a mark, and in a file the table's length, the verdict and the first record.
pub const COUNT_AT: usize = 1;

pub const LENGTH_AT: usize = 2;

pub const VERDICT_AT: usize = 3;

pub const RECORDS_AT: usize = 4;

// Mark and count of a record, and where the first word of the table stands.
pub const RECORD_HEAD: usize = 2;

const WORDS_AT: usize = RECORDS_AT + RECORD_HEAD;

// An instruction of two words: its location, its number and its operand.
#[derive(Clone, Copy, Debug, PartialEq, Eq)]
struct Instruction {
    at: usize,
    number: u16,
    operand: usize,
}

// Entries of a choice table: where the first label stands, and how many there are.
#[derive(Clone, Copy, Debug, PartialEq, Eq)]
struct Entries {
    first: usize,
    count: usize,
}

// The words of a table: those past 4,096 are outside it.
pub fn size_of(table: &[u8]) -> usize
    ensures { result ≡ length (table_of table.now) }
{
    machine::count_words(table).min(TABLE_WORDS)
}

// The word at a location of the table.
pub fn word_at(table: &[u8], l: usize) -> usize
    requires { (1 ≤ l) × (l ≤ length (table_of table.now)) }
    ensures { (fetch (table_of table.now) l ≡ some result) × (result < 65536) }
{
    usize::from(machine::word(table, l - 1))
}

// Where a location leads to a place outside the table, nothing more is marked and the functions below give None; else they give how many are marked.

// A location is marked, if it is inside the table and is not marked yet.
fn mark(m: usize, size: usize, tail: usize, seen: &mut [u8], order: &mut [u16]) -> Option<usize>
    requires { Kept size tail seen.old order.old }
    ensures { Marked size (mark_of size m (work true tail seen.old order.old)) result seen.new order.new }
{
    if m == 0 || size < m {
        return None;
    }
    if seen[m - 1] != 0 {
        return Some(tail);
    }
    seen[m - 1] = 1;
    order[tail] = m as u16;
    Some(tail + 1)
}

// Where n labels lead is marked, the first label standing at `from`.
fn mark_labels(
    table: &[u8],
    n: usize,
    from: usize,
    size: usize,
    tail: usize,
    seen: &mut [u8],
    order: &mut [u16],
) -> Option<usize>
    requires { Kept size tail seen.old order.old × Lies (table_of table.now) n from size }
    ensures { Marked size (marks_of size (labelled (table_of table.now) n from) (work true tail seen.old order.old)) result seen.new order.new }
{
    let mut at = tail;
    for i in 0..n {
        let l = from + 2 * i + 1;
        let x = word_at(table, l);
        at = mark(l.saturating_sub(x), size, at, seen, order)?;
    }
    Some(at)
}

// How many of the entries that are left stand in the block of the first one.
fn piece(first: usize, left: usize) -> usize
    requires { 1 ≤ left }
    ensures { Piece left result }
{
    left.min((BLOCK_WORDS + 1 - first % BLOCK_WORDS) / 2)
}

// Whether the entries are a whole block.
fn is_block(e: Entries) -> bool
    ensures { result ≡ true → Whole e.first e.count }
{
    e.count == BLOCK && e.first % BLOCK_WORDS < 2
}

// Where the entries lead is marked, unless they are a block that was gone through.
fn mark_piece(
    table: &[u8],
    e: Entries,
    size: usize,
    tail: usize,
    seen: &mut [u8],
    order: &mut [u16],
    passed: &mut [u8],
) -> Option<usize>
    requires { Kept size tail seen.old order.old × Lies (table_of table.now) e.count e.first size × Passed (table_of table.now) size seen.old passed.old }
    ensures { Through (table_of table.now) size (marks_of size (labelled (table_of table.now) e.count e.first) (work true tail seen.old order.old)) result seen.new order.new passed.new }
{
    let first = e.first;
    let n = e.count;
    if !is_block(e) {
        return mark_labels(table, n, first, size, tail, seen, order);
    }
    let block = first / BLOCK_WORDS * 2 + first % 2;
    if passed[block] != 0 {
        return Some(tail);
    }
    let at = mark_labels(table, n, first, size, tail, seen, order)?;
    passed[block] = 1;
    Some(at)
}

// Where the entries of a choice table lead is marked, block by block.
fn mark_entries(
    table: &[u8],
    e: Entries,
    size: usize,
    tail: usize,
    seen: &mut [u8],
    order: &mut [u16],
    passed: &mut [u8],
) -> Option<usize>
    requires { Kept size tail seen.old order.old × Lies (table_of table.now) e.count e.first size × Passed (table_of table.now) size seen.old passed.old }
    ensures { Through (table_of table.now) size (marks_of size (labelled (table_of table.now) e.count e.first) (work true tail seen.old order.old)) result seen.new order.new passed.new }
{
    let n = e.count;
    let mut at = tail;
    let mut i = 0;
    // no range: a piece has as many entries as are left of its block
    while i < n {
        let first = e.first + 2 * i;
        let k = piece(first, n - i);
        let part = Entries { first, count: k };
        at = mark_piece(table, part, size, at, seen, order, passed)?;
        i += k;
    }
    Some(at)
}

// Two locations are marked.
fn mark_two(
    m: usize,
    k: usize,
    size: usize,
    tail: usize,
    seen: &mut [u8],
    order: &mut [u16],
) -> Option<usize>
    requires { Kept size tail seen.old order.old }
    ensures { Marked size (marks_of size (m ∷ k ∷ []) (work true tail seen.old order.old)) result seen.new order.new }
{
    let at = mark(m, size, tail, seen, order)?;
    mark(k, size, at, seen, order)
}

// The labels and the default of the choice table at c.
fn mark_choice(
    table: &[u8],
    c: usize,
    size: usize,
    tail: usize,
    seen: &mut [u8],
    order: &mut [u16],
    passed: &mut [u8],
) -> Option<usize>
    requires { Kept size tail seen.old order.old × (size ≡ length (table_of table.now)) × (1 ≤ c) × (c < 1000000) × Passed (table_of table.now) size seen.old passed.old }
    ensures { Through (table_of table.now) size (choice_of (table_of table.now) c (work true tail seen.old order.old)) result seen.new order.new passed.new }
{
    if size < c {
        return None;
    }
    let n = word_at(table, c);
    if size < c + 2 * n {
        return None;
    }
    let all = Entries {
        first: c + 1,
        count: n,
    };
    let at = mark_entries(table, all, size, tail, seen, order, passed)?;
    mark(c + 1 + 2 * n, size, at, seen, order)
}

// An instruction of one word.
fn visit_one(
    table: &[u8],
    l: usize,
    i: u16,
    size: usize,
    tail: usize,
    seen: &mut [u8],
    order: &mut [u16],
) -> Option<usize>
    requires { Holds (table_of table.now) l i 1 size tail seen.old order.old }
    ensures { Marked size (visit_of (table_of table.now) l (work true tail seen.old order.old)) result seen.new order.new }
{
    if i == machine::RETURN || i == machine::END_CHOICE {
        return Some(tail);
    }
    mark(l + 1, size, tail, seen, order)
}

// An instruction of two words.
fn visit_two(
    table: &[u8],
    i: Instruction,
    size: usize,
    tail: usize,
    seen: &mut [u8],
    order: &mut [u16],
    passed: &mut [u8],
) -> Option<usize>
    requires { Takes (table_of table.now) i.at i.number i.operand size tail seen.old order.old × Passed (table_of table.now) size seen.old passed.old }
    ensures { Through (table_of table.now) size (visit_of (table_of table.now) i.at (work true tail seen.old order.old)) result seen.new order.new passed.new }
{
    match i.number {
        machine::JUMP_FORWARD => mark(i.at + 1 + i.operand, size, tail, seen, order),
        machine::JUMP_BACK => mark(
            (i.at + 1).saturating_sub(i.operand),
            size,
            tail,
            seen,
            order,
        ),
        machine::INPUT_CHOICE | machine::CHOICE => {
            mark_choice(table, i.at + 1 + i.operand, size, tail, seen, order, passed)
        }
        machine::CALL => mark_two(i.operand, i.at + 2, size, tail, seen, order),
        _ => mark(i.at + 2, size, tail, seen, order),
    }
}

// The ways from a location are marked, unless it gives 37.
fn visit(
    table: &[u8],
    l: usize,
    size: usize,
    tail: usize,
    seen: &mut [u8],
    order: &mut [u16],
    passed: &mut [u8],
) -> Option<usize>
    requires { Ready (table_of table.now) l size tail seen.old order.old × Passed (table_of table.now) size seen.old passed.old }
    ensures { Through (table_of table.now) size (visit_of (table_of table.now) l (work true tail seen.old order.old)) result seen.new order.new passed.new }
{
    let i = machine::word(table, l - 1);
    let n = machine::instruction_length(i);
    if n == 0 {
        return None;
    }
    if n == 1 {
        return visit_one(table, l, i, size, tail, seen, order);
    }
    if size < l + 1 {
        return None;
    }
    let x = word_at(table, l + 1);
    let two = Instruction {
        at: l,
        number: i,
        operand: x,
    };
    visit_two(table, two, size, tail, seen, order, passed)
}

// Whether the table is taken; a flag for each location that can be reached. `order` is room for work, and no block is passed yet.
fn reach_all(table: &[u8], seen: &mut [u8], order: &mut [u16], passed: &mut [u8]) -> bool
    requires { (length seen.old ≡ 4096) × (length order.old ≡ 4096) × (passed.old ≡ replicate 256 0) }
    ensures { Tells (table_of table.now) result seen.new }
{
    seen.fill(0);
    let size = size_of(table);
    let Some(mut tail) = mark(1, size, 0, seen, order) else {
        return false;
    };
    let mut head = 0;
    // the row grows while it is gone through
    while head < tail {
        let l = usize::from(order[head]);
        let Some(more) = visit(table, l, size, tail, seen, order, passed) else {
            return false;
        };
        tail = more;
        head += 1;
    }
    true
}

// Whether the table is taken; a flag for each location that can be reached. `order` is room for work.
pub fn reach(table: &[u8], seen: &mut [u8], order: &mut [u16]) -> bool
    requires { (length seen.old ≡ 4096) × (length order.old ≡ 4096) }
    ensures { Tells (table_of table.now) result seen.new }
{
    let mut passed: [u8; BLOCKS] = [0; BLOCKS];
    reach_all(table, seen, order, &mut passed)
}

// Whether the loader takes the table.
pub fn takes(table: &[u8]) -> bool
    ensures { result ≡ taken (table_of table.now) }
{
    let mut seen: [u8; TABLE_WORDS] = [0; TABLE_WORDS];
    let mut order: [u16; TABLE_WORDS] = [0; TABLE_WORDS];
    reach(table, &mut seen, &mut order)
}

// Table files

// Whether a full record stands at the word p.
fn full_record(file: &[u8], total: usize, p: usize) -> bool
    requires { (total ≡ count file.now) × (p < 1000000) }
    ensures { result ≡ full_at (words_of file.now) p }
{
    machine::word(file, p) == TABLE_MARK
        && usize::from(machine::word(file, p + COUNT_AT)) == RECORD_WORDS
        && p + RECORD <= total
}

// Whether the last record, of so many words, stands at the word p and ends the file.
fn last_record(file: &[u8], total: usize, p: usize, left: usize) -> bool
    requires { (total ≡ count file.now) × (p < 1000000) × (left ≤ 256) × (1 ≤ left) }
    ensures { result ≡ last_at (words_of file.now) p left }
{
    machine::word(file, p) == TABLE_MARK
        && usize::from(machine::word(file, p + COUNT_AT)) == left
        && p + left + RECORD_HEAD == total
}

// Whether the records of n words stand behind the first four words.
fn are_records(file: &[u8], total: usize, n: usize) -> bool
    requires { (total ≡ count file.now) × (1 ≤ n) × (n ≤ 4096) }
    ensures { result ≡ formed 16 n (drop 4 (words_of file.now)) }
{
    let full = (n - 1) / RECORD_WORDS;
    for k in 0..full {
        if !full_record(file, total, RECORDS_AT + RECORD * k) {
            return false;
        }
    }
    last_record(
        file,
        total,
        RECORDS_AT + RECORD * full,
        n - RECORD_WORDS * full,
    )
}

// The words of the table that the file holds; None for bytes that are no file.
fn file_words(file: &[u8]) -> Option<usize>
    ensures { result ≡ size_named file.now }
{
    if file.len() % 2 != 0
        || machine::word(file, 0) != HEAD_MARK
        || machine::word(file, COUNT_AT) != HEAD_WORDS
    {
        return None;
    }
    let n = usize::from(machine::word(file, LENGTH_AT));
    if n == 0 || TABLE_WORDS < n || 1 < machine::word(file, VERDICT_AT) {
        return None;
    }
    if are_records(file, machine::count_words(file), n) {
        Some(n)
    } else {
        None
    }
}

// Why a table file is not loaded or not written.
#[derive(Clone, Copy, Debug, PartialEq, Eq)]
pub enum FileError {
    NotFormed,
    TooShort,
    NotTaken,
}

// The number that C is told of it.
impl From<FileError> for u16 {
    ghost from_gives = { λ error n. n ≡ error_number error };

    fn from(error: FileError) -> u16 {
        match error {
            FileError::NotFormed => base::NOT_FORMED,
            FileError::TooShort => base::TOO_SHORT,
            FileError::NotTaken => base::NOT_TAKEN,
        }
    }
}

// What is loaded: the words of the table, and the sender's verdict word.
#[derive(Clone, Copy, Debug, PartialEq, Eq)]
pub struct Loaded {
    pub words: usize,
    pub verdict: usize,
}

// The words of the table are copied from its file.
fn copy_words(file: &[u8], n: usize, out: &mut [u8])
    requires { (is_file file.now ≡ true) × (n ≡ length (table_named file.now)) × (n ≤ 4096) × (2 * n ≤ length out.old) }
    ensures { out.new ≡ over (bytes_of (table_named file.now)) out.old }
{
    for k in 0..n {
        let x = machine::word(file, k + RECORD_HEAD * (k / RECORD_WORDS) + WORDS_AT);
        buffers::put_word(out, k, x);
    }
}

// A file is loaded into the lent table.
pub fn load(file: &[u8], table: &mut [u8]) -> Result<Loaded, FileError>
    ensures { Loads (load file.now (count table.old)) result table.old table.new }
{
    let named = file_words(file);
    buffers::clear_words(table);
    let Some(words) = named else {
        return Err(FileError::NotFormed);
    };
    if table.len() / 2 < words {
        return Err(FileError::TooShort);
    }
    copy_words(file, words, table);
    if !takes(&table[..2 * words]) {
        buffers::clear_words(table);
        return Err(FileError::NotTaken);
    }
    Ok(Loaded {
        words,
        verdict: usize::from(machine::word(file, VERDICT_AT)),
    })
}
