// Rights over the operations: whether a table is admitted for the publisher who holds a granted set.
#![tactic(auto)]

ghost use Rattle.std.specs.Prelude.{◌≡◌, ◌≤◌};
ghost use Rattle.loading.specs.File.{load, lent_bytes};
ghost use Rattle.machine.specs.Bytes.{count, table_of};
ghost use Rattle.rights.specs.Rights.{granted, denied, admit, admit_loaded};
ghost use Rattle.admission.specs.Flags.{Flagged, AllFlagged, wrong_at};
ghost use Rattle.admission.specs.Told.{denial_number, location_in, said, told, Lowest};
ghost use Rattle.admission.specs.declared.AdmissionError.TheVariants.{NotLoaded};

use base::TABLE_WORDS;
use loader::{FileError, Loaded};
use machine::{FIRST_OPERATION, LAST_OPERATION};

// The bits of a byte of the set.
const BYTE_BITS: usize = 8;

// Why a table is not admitted: the loader does not take it, or an operation is not granted, with the lowest location at which one is reached.
#[derive(Clone, Copy, Debug, PartialEq, Eq)]
pub enum Denial {
    NotTaken,
    NotGranted(usize),
}

// The number that C is told of it.
impl From<Denial> for u16 {
    ghost from_gives = { λ denial n. n ≡ denial_number denial };

    fn from(denial: Denial) -> u16 {
        match denial {
            Denial::NotTaken => base::NOT_TAKEN,
            Denial::NotGranted(_) => base::NOT_GRANTED,
        }
    }
}

// The location that it names, 0 for none.
pub fn location_of(denial: Denial) -> usize
    ensures { result ≡ location_in denial }
{
    match denial {
        Denial::NotTaken => 0,
        Denial::NotGranted(location) => location,
    }
}

// Why a file's table is not loaded and admitted: the file is not loaded, or the table is denied; then it stays where it was loaded.
#[derive(Clone, Copy, Debug, PartialEq, Eq)]
pub enum AdmissionError {
    NotLoaded(FileError),
    Denied(Loaded, Denial),
}

impl From<FileError> for AdmissionError {
    ghost from_gives = { λ error e. e ≡ NotLoaded error };

    fn from(error: FileError) -> AdmissionError {
        AdmissionError::NotLoaded(error)
    }
}

// Whether the operation is in the set: each byte's bits from the highest on.
fn grants(set: &[u8], op: usize) -> bool
    requires { 256 ≤ op }
    ensures { result ≡ granted set.now op }
{
    let k = op - FIRST_OPERATION;
    match set.get(k / BYTE_BITS) {
        Some(byte) => (*byte >> (BYTE_BITS - 1 - k % BYTE_BITS)) & 1 == 1,
        None => false,
    }
}

// Whether an operation stands at l that can be reached and is not granted.
fn is_wrong(table: &[u8], set: &[u8], seen: &[u8], l: usize) -> bool
    requires { Flagged (table_of table.now) seen.now l }
    ensures { result ≡ wrong_at (table_of table.now) set.now l }
{
    if seen[l - 1] == 0 {
        return false;
    }
    let i = loader::word_at(table, l);
    match i {
        FIRST_OPERATION..=LAST_OPERATION => !grants(set, i),
        _ => false,
    }
}

// The lowest location at which an operation is reached that is not granted.
fn lowest_denied(table: &[u8], set: &[u8], seen: &[u8], size: usize) -> Option<usize>
    requires { AllFlagged (table_of table.now) seen.now size }
    ensures { Lowest (denied (table_of table.now) set.now) result }
{
    for l in 1..size + 1 {
        if is_wrong(table, set, seen, l) {
            return Some(l);
        }
    }
    None
}

// Whether a table is admitted for the publisher who holds the set.
#[inline(never)]
pub fn admits(table: &[u8], set: &[u8]) -> Result<(), Denial>
    ensures { said result ≡ admit (table_of table.now) set.now }
{
    let mut seen = [0u8; TABLE_WORDS];
    let mut order = [0u16; TABLE_WORDS];
    if !loader::reach(table, &mut seen, &mut order) {
        return Err(Denial::NotTaken);
    }
    match lowest_denied(table, set, &seen, loader::size_of(table)) {
        Some(location) => Err(Denial::NotGranted(location)),
        None => Ok(()),
    }
}

// A file is loaded into the lent table, and its table admitted or turned away; it stays there where an operation is not granted.
pub fn load_admitted(file: &[u8], set: &[u8], table: &mut [u8]) -> Result<Loaded, AdmissionError>
    ensures told { told result ≡ admit_loaded set.now (load file.now (count table.old)) }
    ensures lent { table.new ≡ lent_bytes (load file.now (count table.old)) table.old }
{
    let loaded = loader::load(file, table)?;
    match admits(&table[..2 * loaded.words], set) {
        Ok(()) => Ok(loaded),
        Err(denial) => Err(AdmissionError::Denied(loaded, denial)),
    }
}
