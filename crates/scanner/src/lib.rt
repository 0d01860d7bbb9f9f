// From bytes to words: the first word from a place of a text on.
// Loops and tests here go by indices and returns: ranges, `match` and the library's tests were tried, and take more
// instructions than scripts/text-costs allows (docs/DESIGN-PASS.md).
#![tactic(auto)]

ghost use Rattle.std.specs.Prelude.{◌≡◌, ◌+◌, ◌^◌, ◌≤◌, ◌<◌, length, take, drop, get_or};
ghost use Rattle.base.specs.Common.{same};
ghost use Rattle.words.specs.Words.{blank, symbol, digit, letter, name_byte, string_byte, kind_of, reserved, string_here, word_here};
ghost use Rattle.scanner.specs.Next.{Next};
ghost use Rattle.scanner.specs.Scanning.{in_class, Ran, brackets, heads, others, name_here, number_here, greater_here, symbol_here, word_found, Spelt, Skipped};

// A word of a text: its kind (crates/words has the numbers), the place and the number of its bytes, the place past it.
#[derive(Clone, Copy, Debug, PartialEq, Eq)]
pub struct WordAt {
    pub kind: u16,
    pub start: usize,
    pub len: usize,
    pub next: usize,
}

// Bytes that run on: of a name, of a number, inside a string, in a comment.
#[derive(Clone, Copy, Debug, PartialEq, Eq)]
pub enum Class {
    Name,
    Digit,
    Inside,
    Line,
}

fn is_blank(b: u8) -> bool
    ensures { result ≡ blank b }
{
    if b == b' ' {
        return true;
    }
    if b == b'\t' {
        return true;
    }
    if b == b'\r' {
        return true;
    }
    b == b'\n'
}

fn is_symbol(b: u8) -> bool
    ensures { result ≡ symbol b }
{
    match b {
        b'(' | b'[' | b'{' => true,
        b')' | b']' | b'}' => true,
        b':' | b',' | b'=' | b'|' => true,
        b';' | b'.' | b'#' | b'*' | b'?' | b'^' => true,
        b'@' | b'>' => true,
        _ => false,
    }
}

fn is_digit(b: u8) -> bool
    ensures { result ≡ digit b }
{
    if b < b'0' {
        return false;
    }
    b <= b'9'
}

fn is_letter(b: u8) -> bool
    ensures { result ≡ letter b }
{
    if b < b'A' {
        return false;
    }
    if b <= b'Z' {
        return true;
    }
    if b < b'a' {
        return false;
    }
    b <= b'z'
}

fn is_name_byte(b: u8) -> bool
    ensures { result ≡ name_byte b }
{
    if b'a' <= b {
        return b <= b'z';
    }
    if b'A' <= b {
        if b <= b'Z' {
            return true;
        }
        return b == b'_';
    }
    is_digit(b)
}

fn is_string_byte(b: u8) -> bool
    ensures { result ≡ string_byte b }
{
    if b == b'\'' {
        return false;
    }
    b != b'\n'
}

fn in_class(class: Class, b: u8) -> bool
    ensures { result ≡ in_class class b }
{
    match class {
        Class::Name => is_name_byte(b),
        Class::Digit => is_digit(b),
        Class::Inside => is_string_byte(b),
        Class::Line => b != b'\n',
    }
}

// How many bytes from `at` on are of the class.
fn run_of(text: &[u8], at: usize, class: Class) -> usize
    requires { at ≤ length text.now }
    ensures { Ran text.now at class result }
{
    let mut i = at;
    while i < text.len() {
        if !in_class(class, text[i]) {
            return i - at;
        }
        i += 1;
    }
    i - at
}

// The word at `start` is spelt so.
pub fn spelt(text: &[u8], start: usize, len: usize, word: &[u8]) -> bool
    requires { start + len ≤ length text.now }
    ensures { result ≡ same (take len (drop start text.now)) word.now }
{
    if len != word.len() {
        return false;
    }
    let mut i = 0;
    while i < len {
        if text[start + i] != word[i] {
            return false;
        }
        i += 1;
    }
    true
}

fn kind_of_brackets(text: &[u8], start: usize, len: usize) -> u16
    requires { start + len ≤ length text.now }
    ensures { result ≡ kind_of (take len (drop start text.now)) brackets }
{
    if spelt(text, start, len, b"do") {
        return words::DO;
    }
    if spelt(text, start, len, b"od") {
        return words::OD;
    }
    if spelt(text, start, len, b"if") {
        return words::IF;
    }
    if spelt(text, start, len, b"fi") {
        return words::FI;
    }
    words::NAME
}

fn kind_of_heads(text: &[u8], start: usize, len: usize) -> u16
    requires { start + len ≤ length text.now }
    ensures { result ≡ kind_of (take len (drop start text.now)) heads }
{
    if spelt(text, start, len, b"input") {
        return words::INPUT;
    }
    if spelt(text, start, len, b"output") {
        return words::OUTPUT;
    }
    if spelt(text, start, len, b"error") {
        return words::ERROR;
    }
    if spelt(text, start, len, b"type") {
        return words::TYPE;
    }
    words::NAME
}

fn kind_of_others(text: &[u8], start: usize, len: usize) -> u16
    requires { start + len ≤ length text.now }
    ensures { result ≡ kind_of (take len (drop start text.now)) others }
{
    if spelt(text, start, len, b"mechanism") {
        return words::MECHANISM;
    }
    if spelt(text, start, len, b"rules") {
        return words::RULES;
    }
    if spelt(text, start, len, b"end") {
        return words::END;
    }
    words::NAME
}

fn kind_of(text: &[u8], start: usize, len: usize) -> u16
    requires { start + len ≤ length text.now }
    ensures { result ≡ kind_of (take len (drop start text.now)) reserved }
{
    let a = kind_of_brackets(text, start, len);
    if a != words::NAME {
        return a;
    }
    let b = kind_of_heads(text, start, len);
    if b != words::NAME {
        return b;
    }
    kind_of_others(text, start, len)
}

fn found(kind: u16, start: usize, len: usize) -> WordAt
    requires { start + len < 2 ^ 64 }
    ensures { result ≡ word_found kind start len }
{
    WordAt {
        kind,
        start,
        len,
        next: start + len,
    }
}

fn name_here(text: &[u8], at: usize) -> WordAt
    requires { at < length text.now }
    ensures { Spelt text.now at (name_here (get_or text.now at 0) (drop (at + 1) text.now)) result }
{
    let n = run_of(text, at + 1, Class::Name);
    let kind = kind_of(text, at, n + 1);
    found(kind, at, n + 1)
}

fn number_here(text: &[u8], at: usize) -> WordAt
    requires { at < length text.now }
    ensures { Spelt text.now at (number_here (drop (at + 1) text.now)) result }
{
    let n = run_of(text, at + 1, Class::Digit);
    found(words::NUMBER, at, n + 1)
}

fn string_here(text: &[u8], at: usize) -> WordAt
    requires { at < length text.now }
    ensures { Spelt text.now at (string_here (drop (at + 1) text.now)) result }
{
    let n = run_of(text, at + 1, Class::Inside);
    if n < 1 {
        return found(words::BAD, at, 1);
    }
    if base::WORD_BYTES < n {
        return found(words::BAD, at, 1);
    }
    let e = at + 1 + n;
    if e < text.len() {
        let q = text[e];
        if q == b'\'' {
            return found(words::STRING, at, n + 2);
        }
        return found(words::BAD, at, 1);
    }
    found(words::BAD, at, 1)
}

fn greater_here(text: &[u8], at: usize) -> WordAt
    requires { at < length text.now }
    ensures { Spelt text.now at (greater_here (drop (at + 1) text.now)) result }
{
    let e = at + 1;
    if e < text.len() {
        let q = text[e];
        if q == b'>' {
            return found(words::TWICE, at, 2);
        }
        return found(words::GREATER, at, 1);
    }
    found(words::GREATER, at, 1)
}

fn symbol_here(text: &[u8], at: usize) -> WordAt
    requires { at < length text.now }
    ensures { Spelt text.now at (symbol_here (get_or text.now at 0)) result }
{
    let b = text[at];
    if b == b'!' {
        return found(words::BAR, at, 1);
    }
    if is_symbol(b) {
        return found(u16::from(b), at, 1);
    }
    found(words::BAD, at, 1)
}

fn word_here(text: &[u8], at: usize) -> WordAt
    requires { at < length text.now }
    ensures { Spelt text.now at (word_here (get_or text.now at 0) (drop (at + 1) text.now)) result }
{
    let b = text[at];
    if is_letter(b) {
        return name_here(text, at);
    }
    if is_digit(b) {
        return number_here(text, at);
    }
    if b == b'\'' {
        return string_here(text, at);
    }
    if b == b'>' {
        return greater_here(text, at);
    }
    symbol_here(text, at)
}

// The place of the first byte from `at` on that is no blank and in no comment.
fn skip(text: &[u8], at: usize) -> usize
    requires { at ≤ length text.now }
    ensures { Skipped text.now at result }
{
    let mut i = at;
    while i < text.len() {
        let b = text[i];
        if is_blank(b) {
            i += 1;
        } else {
            if b != b'%' {
                return i;
            }
            i = i + 1 + run_of(text, i + 1, Class::Line);
        }
    }
    i
}

// The first word from `at` on. Past the end of the text it is the end, at `at`.
pub fn next_word(text: &[u8], at: usize) -> WordAt
    ensures { Next text.now at result }
{
    if text.len() <= at {
        return found(words::LAST, at, 0);
    }
    let i = skip(text, at);
    if i < text.len() {
        return word_here(text, i);
    }
    found(words::LAST, i, 0)
}
