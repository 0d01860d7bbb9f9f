// The character filter: entries of four bytes, first byte, last byte and token, that name a token for each byte value.
#![tactic(auto)]

ghost use Rattle.std.specs.Prelude.{◌≡◌, ◌+◌, ◌*◌, ◌-◌, ◌<◌, ◌≤◌, ◌/◌, eqb, leb, length, get_or, position};
ghost use Rattle.buffers.specs.Words.{put_word};
ghost use Rattle.machine.specs.Bytes.{count, bytes_of, over};
ghost use Rattle.filtering.specs.Filter.{entries, crossed, filter, numbers_of, buffer_after};
ghost use Rattle.filter.specs.Working.{entry_at, turned, given, Counts, Tallied, map_tokens, put_words};
ghost use Rattle.filter.specs.Told.{error_number, named_in, told};

use base::BYTE_VALUES;

// The bytes of an entry: first, last, and the token's two.
const ENTRY_BYTES: usize = 4;

const LAST_AT: usize = 1;

const HIGH_AT: usize = 2;

const LOW_AT: usize = 3;

const MOST_ENTRIES: usize = 64;

// The tokens that are put at a time.
const AT_A_TIME: usize = 4;

// Why nothing is filtered: too many entries, the first entry whose first exceeds its last, the lowest byte in two entries or in none, or too little room.
#[derive(Clone, Copy, Debug, PartialEq, Eq)]
pub enum FilterError {
    OverLimit,
    Crossed(usize),
    Doubled(usize),
    NotCovered(usize),
    TooShort,
}

// The number that C is told of it.
impl From<FilterError> for u16 {
    ghost from_gives = { λ error n. n ≡ error_number error };

    fn from(error: FilterError) -> u16 {
        match error {
            FilterError::OverLimit => base::OVER_LIMIT,
            FilterError::Crossed(_) => base::CROSSED,
            FilterError::Doubled(_) => base::DOUBLED,
            FilterError::NotCovered(_) => base::NOT_COVERED,
            FilterError::TooShort => base::TOO_SHORT,
        }
    }
}

// The entry or the byte that it names, 0 for none.
pub fn named(error: FilterError) -> usize
    ensures { result ≡ named_in error }
{
    match error {
        FilterError::Crossed(at) | FilterError::Doubled(at) | FilterError::NotCovered(at) => at,
        FilterError::OverLimit | FilterError::TooShort => 0,
    }
}

// The first entry whose first exceeds its last.
fn first_crossed(s: &[u8], n: usize) -> Option<usize>
    requires { n ≡ length s.now / 4 }
    ensures { result ≡ given (crossed 0 (entries s.now)) }
{
    for i in 0..n {
        if s[ENTRY_BYTES * i + LAST_AT] < s[ENTRY_BYTES * i] {
            return Some(i);
        }
    }
    None
}

// The token of entry i, its bytes exchanged.
fn turned_token(s: &[u8], i: usize) -> u16
    requires { i < length s.now / 4 }
    ensures { turned result ≡ (entry_at s.now i).token }
{
    u16::from_le_bytes([s[ENTRY_BYTES * i + HIGH_AT], s[ENTRY_BYTES * i + LOW_AT]])
}

// One entry more has the byte; the token is that of the first.
fn tally_byte(b: usize, token: u16, held: &mut [u8], map: &mut [u16])
    requires { (b < length held.old) × (b < length map.old) × (get_or held.old b 0 < 64) }
    ensures { Counts b token held.old map.old held.new map.new }
{
    if held[b] == 0 {
        map[b] = token;
    }
    held[b] += 1;
}

// Entry i: its bytes.
fn tally_entry(s: &[u8], i: usize, held: &mut [u8], map: &mut [u16])
    requires { (i < length s.now / 4) × (i < 64) × Tallied s.now i held.old map.old }
    ensures { Tallied s.now (i + 1) held.new map.new }
{
    let token = turned_token(s, i);
    let first = usize::from(s[ENTRY_BYTES * i]);
    let last = usize::from(s[ENTRY_BYTES * i + LAST_AT]);
    for b in first..last + 1 {
        tally_byte(b, token, held, map);
    }
}

// How many entries have each byte value, and its token. The map has tokens with their bytes exchanged: so a word is stored as it was loaded.
fn tally(s: &[u8], n: usize, held: &mut [u8], map: &mut [u16])
    requires { (n ≡ length s.now / 4) × (n ≤ 64) × Tallied s.now 0 held.old map.old }
    ensures { Tallied s.now n held.new map.new }
{
    for i in 0..n {
        tally_entry(s, i, held, map);
    }
}

// The lowest byte in two entries.
fn lowest_doubled(held: &[u8]) -> Option<usize>
    ensures { result ≡ position (λ k. leb 2 k) held.now }
{
    held.iter().position(|&count| 2 <= count)
}

// The lowest byte in none.
fn lowest_missing(held: &[u8]) -> Option<usize>
    ensures { result ≡ position (λ k. eqb k 0) held.now }
{
    held.iter().position(|&count| count == 0)
}

// The word x, whose bytes are exchanged, at index i.
fn put_turned(out: &mut [u8], i: usize, x: u16)
    requires { 2 * i + 1 < length out.old }
    ensures { out.new ≡ put_word out.old i (turned x) }
{
    let [low, high] = x.to_le_bytes();
    out[2 * i] = low;
    out[2 * i + 1] = high;
}

// The token of byte k of the text.
fn put_token(map: &[u16], text: &[u8], k: usize, out: &mut [u8])
    requires { (length map.now ≡ 256) × (k < length text.now) × (2 * length text.now ≤ length out.old) }
    ensures { out.new ≡ put_words (map_tokens map.now text.now) 1 k out.old }
{
    put_turned(out, k, map[usize::from(text[k])]);
}

fn put_two(map: &[u16], text: &[u8], k: usize, out: &mut [u8])
    requires { (length map.now ≡ 256) × (k + 1 < length text.now) × (2 * length text.now ≤ length out.old) }
    ensures { out.new ≡ put_words (map_tokens map.now text.now) 2 k out.old }
{
    put_token(map, text, k, out);
    put_token(map, text, k + 1, out);
}

// The tokens of the text four at a time, as long as there are four; how many. One at a time takes a fifth longer.
fn put_fours(map: &[u16], text: &[u8], out: &mut [u8]) -> usize
    requires { (length map.now ≡ 256) × (2 * length text.now ≤ length out.old) }
    ensures { (result ≤ length text.now) × (out.new ≡ put_words (map_tokens map.now text.now) result 0 out.old) }
{
    let fours = text.len() / AT_A_TIME;
    for i in 0..fours {
        put_two(map, text, AT_A_TIME * i, out);
        put_two(map, text, AT_A_TIME * i + 2, out);
    }
    AT_A_TIME * fours
}

// The tokens of the text from byte k on.
fn put_rest(map: &[u16], text: &[u8], k: usize, out: &mut [u8])
    requires { (length map.now ≡ 256) × (k ≤ length text.now) × (2 * length text.now ≤ length out.old) }
    ensures { out.new ≡ put_words (map_tokens map.now text.now) (length text.now - k) k out.old }
{
    for i in k..text.len() {
        put_token(map, text, i, out);
    }
}

// The token of each byte of the text.
fn put_tokens(map: &[u16], text: &[u8], out: &mut [u8])
    requires { (length map.now ≡ 256) × (2 * length text.now ≤ length out.old) }
    ensures { out.new ≡ over (bytes_of (map_tokens map.now text.now)) out.old }
{
    let k = put_fours(map, text, out);
    put_rest(map, text, k, out);
}

// The tokens of a byte string under a filter, written from the start of a lent buffer; how many.
pub fn fold(s: &[u8], text: &[u8], out: &mut [u8]) -> Result<usize, FilterError>
    ensures told { told result ≡ numbers_of (filter s.now text.now (count out.old)) }
    ensures lent { out.new ≡ buffer_after (filter s.now text.now (count out.old)) out.old }
{
    let n = s.len() / ENTRY_BYTES;
    if MOST_ENTRIES < n {
        return Err(FilterError::OverLimit);
    }
    if let Some(entry) = first_crossed(s, n) {
        return Err(FilterError::Crossed(entry));
    }
    let mut held = [0u8; BYTE_VALUES];
    let mut map = [0u16; BYTE_VALUES];
    tally(s, n, &mut held, &mut map);
    if let Some(byte) = lowest_doubled(&held) {
        return Err(FilterError::Doubled(byte));
    }
    if let Some(byte) = lowest_missing(&held) {
        return Err(FilterError::NotCovered(byte));
    }
    if out.len() / 2 < text.len() {
        return Err(FilterError::TooShort);
    }
    put_tokens(&map, text, out);
    Ok(text.len())
}
