// The writer of table files: the one file of a table and a verdict, in a lent buffer.
#![tactic(auto)]

ghost use Rattle.std.specs.Prelude.{◌≡◌, [], ◌∷◌, ◌-◌, ◌<◌, ◌≤◌, min, length, get_or};
ghost use Rattle.machine.specs.Bytes.{count, words_of, bytes_of, over};
ghost use Rattle.loading.specs.File.{records, file_words, allowed, store};
ghost use Rattle.writer.specs.Storing.{Sized, Fits, file_length, Stores};

use loader::{FileError, RECORD, RECORD_HEAD, RECORD_WORDS, RECORDS_AT};

// Whether a table of so many words has a file with the verdict.
fn is_allowed(n: usize, verdict: u64) -> bool
    ensures { result ≡ allowed n verdict }
{
    match n {
        1..=base::TABLE_WORDS => verdict <= 1,
        _ => false,
    }
}

// The words of the file of a table of n words: each record has two more than its words.
fn file_length(n: usize) -> usize
    requires { n ≤ 4096 }
    ensures { result ≡ file_length n }
{
    n + RECORD_HEAD * n.div_ceil(RECORD_WORDS) + RECORDS_AT
}

// The words before the first record.
fn header_word(n: usize, verdict: u64, j: usize) -> u16
    requires { (n ≤ 4096) × (verdict ≤ 1) × (j < 4) }
    ensures { result ≡ get_or (18500 ∷ 2 ∷ n ∷ verdict ∷ []) j 0 }
{
    let header = [
        loader::HEAD_MARK,
        loader::HEAD_WORDS,
        n as u16,
        verdict as u16,
    ];
    header[j]
}

// The count of a record, where so many words of the table are left.
fn record_count(left: usize) -> u16
    ensures { result ≡ min 256 left }
{
    left.min(RECORD_WORDS) as u16
}

// The word at index j of the records of a table of n words.
fn record_word(table: &[u8], n: usize, j: usize) -> u16
    requires { Sized (words_of table.now) n × (j < length (records 16 (words_of table.now))) }
    ensures { result ≡ get_or (records 16 (words_of table.now)) j 0 }
{
    let before = j / RECORD * RECORD_WORDS;
    let at = j % RECORD;
    match at {
        0 => loader::TABLE_MARK,
        loader::COUNT_AT => record_count(n - before),
        _ => machine::word(table, before + at - RECORD_HEAD),
    }
}

// The word at index j of the file.
fn file_word(table: &[u8], n: usize, verdict: u64, j: usize) -> u16
    requires { Sized (words_of table.now) n × (verdict ≤ 1) × (j < length (file_words (words_of table.now) verdict)) }
    ensures { result ≡ get_or (file_words (words_of table.now) verdict) j 0 }
{
    if j < RECORDS_AT {
        header_word(n, verdict, j)
    } else {
        record_word(table, n, j - RECORDS_AT)
    }
}

// The words of the file, one after the other.
fn put_file(table: &[u8], n: usize, verdict: u64, total: usize, file: &mut [u8])
    requires { Sized (words_of table.now) n × (verdict ≤ 1) × Fits (file_words (words_of table.now) verdict) total file.old }
    ensures { file.new ≡ over (bytes_of (file_words (words_of table.now) verdict)) file.old }
{
    for j in 0..total {
        buffers::put_word(file, j, file_word(table, n, verdict, j));
    }
}

// The file of a table and a verdict is written into the lent buffer; how many words it has.
pub fn write_file(table: &[u8], verdict: u64, file: &mut [u8]) -> Result<usize, FileError>
    ensures { Stores (store (words_of table.now) verdict (count file.old)) result file.old file.new }
{
    let n = machine::count_words(table);
    let room = file.len() / 2;
    buffers::clear_words(file);
    if !is_allowed(n, verdict) {
        return Err(FileError::NotFormed);
    }
    let total = file_length(n);
    if room < total {
        return Err(FileError::TooShort);
    }
    if !loader::takes(table) {
        return Err(FileError::NotTaken);
    }
    put_file(table, n, verdict, total, file);
    Ok(total)
}
