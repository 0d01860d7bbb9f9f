// The listing of the processor's answer, written into a lent buffer.
#![tactic(auto)]

ghost use Rattle.std.specs.Prelude.{◌≡◌, [], ◌∷◌, ◌+◌, ◌*◌, ◌%◌, ◌<◌, ◌≤◌, length, take};
ghost use Rattle.machine.specs.Bytes.{words_of, table_of};
ghost use Rattle.listing.specs.Listing.{decimal, line_feeds, line_at, word_line, word_lines, verdict_end, heading, figure_line, table_listing, refusal_listing};
ghost use Rattle.listing.specs.Written.{Puts, Listed};

use base::TABLE_WORDS;

// No listing is longer: 12 bytes for each word of the longest table are more than enough.
pub const LONGEST: usize = 12 * TABLE_WORDS;

// The line feeds in a text, or in a piece of one.
pub fn line_feeds(text: &[u8]) -> usize
    ensures value { result ≡ line_feeds text.now }
    ensures upper_bound { result ≤ length text.now }
{
    text.iter().filter(|byte| **byte == b'\n').count()
}

// The line, from 1, of the word that starts there.
pub fn lines_before(text: &[u8], start: usize) -> usize
    ensures { result ≡ line_at text.now start }
{
    1 + line_feeds(&text[..start.min(text.len())])
}

// Writing: each function gives the next place. Past the buffer's end nothing is written.

fn put_byte(out: &mut [u8], at: usize, b: u8) -> usize
    requires { at < 1000000 }
    ensures { Puts (b ∷ []) out.old at out.new result }
{
    if at < out.len() {
        out[at] = b;
    }
    at + 1
}

fn put_bytes(out: &mut [u8], at: usize, s: &[u8]) -> usize
    requires { (at < 100000) × (length s.now ≤ 100) }
    ensures { Puts s.now out.old at out.new result }
{
    let mut next = at;
    for byte in s {
        next = put_byte(out, next, *byte);
    }
    next
}

// The digit for the last place.
fn digit(n: usize) -> u8
    ensures { result ≡ 48 + n % 10 }
{
    b'0' + (n % 10) as u8
}

// A number in decimal: what stands before its last digit, then that.
fn put_decimal(out: &mut [u8], at: usize, n: usize) -> usize
    requires { at < 100000 }
    ensures puts { Puts (decimal n) out.old at out.new result }
    ensures upper_bound { result ≤ at + 20 }
{
    if n < 10 {
        return put_byte(out, at, digit(n));
    }
    let next = put_decimal(out, at, n / 10);
    put_byte(out, next, digit(n))
}

// The line of a location and its word.
fn put_line(out: &mut [u8], at: usize, location: usize, word: usize) -> usize
    requires { at < 90000 }
    ensures { Puts (word_line location word) out.old at out.new result }
{
    let a = put_decimal(out, at, location);
    let b = put_byte(out, a, b' ');
    let d = put_decimal(out, b, word);
    put_byte(out, d, b'\n')
}

// The lines of the table's first words.
fn put_words(table: &[u8], words: usize, out: &mut [u8], at: usize) -> usize
    requires { (words ≤ 4096) × (2 * words ≤ length table.now) × (at ≤ 71) }
    ensures puts { Puts (word_lines 1 (take words (words_of table.now))) out.old at out.new result }
    ensures upper_bound { result ≤ at + 11 * words }
{
    let mut next = at;
    for i in 0..words {
        let word = usize::from(machine::word(table, i));
        next = put_line(out, next, i + 1, word);
    }
    next
}

fn put_verdict(out: &mut [u8], at: usize, finishing: bool) -> usize
    requires { at < 1000 }
    ensures puts { Puts (verdict_end finishing) out.old at out.new result }
    ensures upper_bound { result ≤ at + 4 }
{
    if finishing {
        put_bytes(out, at, b"yes\n")
    } else {
        put_bytes(out, at, b"no\n")
    }
}

// The first line of an accepted text's listing.
fn put_heading(out: &mut [u8], words: usize, finishing: bool) -> usize
    ensures puts { Puts (heading words finishing) out.old 0 out.new result }
    ensures upper_bound { result ≤ 50 }
{
    let a = put_bytes(out, 0, b"table ");
    let b = put_decimal(out, a, words);
    let d = put_bytes(out, b, b" finishing ");
    put_verdict(out, d, finishing)
}

// The line of the figure, none for 0.
fn put_figure(out: &mut [u8], at: usize, figure: u64) -> usize
    requires { at ≤ 50 }
    ensures puts { Puts (figure_line figure) out.old at out.new result }
    ensures upper_bound { result ≤ at + 21 }
{
    if figure == 0 {
        return at;
    }
    let a = put_decimal(out, at, figure as usize);
    put_byte(out, a, b'\n')
}

// A whole listing: as much of it as the lent buffer holds is written, from the buffer's start on, and the answer is the length of all of it. So it is
// complete exactly if the answer is at most the buffer's length; LONGEST bytes are enough for any.

// The listing of a table's first words, high byte first, its verdict and its figure, 0 for none; `words` past the end of the table are not there.
pub fn list_table(table: &[u8], words: usize, finishing: bool, figure: u64, out: &mut [u8]) -> usize
    ensures { Listed (table_listing (take words (table_of table.now)) finishing figure) out.old out.new result }
{
    let n = words.min(table.len() / 2).min(TABLE_WORDS);
    let a = put_heading(out, n, finishing);
    let b = put_figure(out, a, figure);
    put_words(table, n, out, b)
}

// The listing of a refusal.
pub fn list_refusal(number: u16, line: usize, out: &mut [u8]) -> usize
    ensures { Listed (refusal_listing number line) out.old out.new result }
{
    let a = put_bytes(out, 0, b"refused ");
    let b = put_decimal(out, a, usize::from(number));
    let d = put_bytes(out, b, b" line ");
    let e = put_decimal(out, d, line);
    put_byte(out, e, b'\n')
}
