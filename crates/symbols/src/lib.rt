// Lookups in the row of declarations, by an index of its words. Nothing is asked of the text or of the row's numbers: one past its end is
// read as 0, and a part of the text that reaches past the text's end is cut there.
#![tactic(auto)]

ghost use Rattle.std.specs.Prelude.{◌≡◌, List, ℕ, ◌+◌, ◌*◌, ◌-◌, ◌<◌, ◌≤◌, length, get_or, IfSome, IfOk, MatchResult};
ghost use Rattle.base.specs.Common.{same, member, given};
ghost use Rattle.base.specs.Faults.{fault_number};
ghost use Rattle.names.specs.Known.{find, is_word};
ghost use Rattle.names.specs.Declare.{values_of};
ghost use Rattle.declarations.specs.Decls.{knowns_in, index_of, declared_in, elsewhere_in, lookup_in, type_in};
ghost use Rattle.symbols.specs.Index.{seed_of, bucket_of, head_at, key_of, node_of, next_of, push_rows, push_second, push_name, RowsKept, Kept};
ghost use Rattle.symbols.specs.Rows.{word_of, decl_at, held, answer_of, row_in, operation_in, operators_row, rule_in, Looks};
ghost use Rattle.symbols.specs.Search.{part, serves, knows, named, declares, counts};

use base::{Fault, number, part};

// A declaration takes this many numbers of the rows: its class, its value, and where its words stand.
pub const ROW: usize = 8;

pub const CLASS: usize = 0;

pub const VALUE: usize = 1;

pub const NAME_START: usize = 2;

pub const NAME_LEN: usize = 3;

pub const SECOND_START: usize = 4;

pub const SECOND_LEN: usize = 5;

pub const THIRD_START: usize = 6;

pub const THIRD_LEN: usize = 7;

// The classes; the values of the type that is declaration i are of class VALUES + i.
pub const INPUT: usize = 1;

pub const OUTPUT: usize = 2;

pub const BOTH: usize = 3;

pub const ERROR: usize = 4;

pub const TYPE: usize = 5;

pub const OPERATION: usize = 6;

pub const RULE: usize = 7;

pub const VALUES: usize = 8;

pub const OPERATORS: usize = 600;

// Behind the rows: the heads of the chains, the key of the words' hash, the links, how many pairs of a section and a rule there are, and the pairs.
pub const HEADS: usize = 4096;

pub const BUCKETS: usize = 511;

const KEY: usize = 4607;

pub const LINKS: usize = 4608;

pub const PAIRS: usize = 5632;

pub const PAIR: usize = 3;

pub const PAIR_SECTION: usize = 5633;

pub const PAIR_OPERAND: usize = 5634;

pub const PAIR_RULE: usize = 5635;

// A word's hash is below this, 2 to the power 48: the product with a key still fits 64 bits.
const MODULUS: usize = 281474976710656;

// What a word's hash is multiplied by at each byte, at first; the keys that are tried where a chain is long with it; and which chain is long.
const FIRST_KEY: usize = 33;

const KEY_STEP: usize = 2026;

const LAST_KEY: usize = 40000;

const LONG: usize = 32;

// So few rows have no chain that takes long.
const FEW: usize = 64;

// In a row of numbers: no value and no declaration, more than any.
pub const NONE: usize = 65536;

// Parts of the text

// The length of a part.
pub fn part_len(text: &[u8], start: usize, len: usize) -> usize
    ensures { result ≡ length (part text.now start len) }
{
    part(text, start, len).len()
}

#[tactic(auto, using(base::proofs::Laws::same_slices))]
pub fn same_part(text: &[u8], a: usize, alen: usize, b: usize, blen: usize) -> bool
    ensures { result ≡ same (part text.now a alen) (part text.now b blen) }
{
    part(text, a, alen) == part(text, b, blen)
}

// One declaration

// A declaration of class d feeds the class c.
fn serves(c: usize, d: usize) -> bool
    ensures { result ≡ serves c d }
{
    d == c || d == BOTH && matches!(c, INPUT | OUTPUT)
}

// The word is the name of declaration i.
fn is_name(text: &[u8], rows: &[u16], i: usize, word: &[u8]) -> bool
    requires { i ≤ 512 }
    ensures { result ≡ same word.now (decl_at text.now rows.now i).name.text }
{
    word == part(
        text,
        number(rows, ROW * i + NAME_START),
        number(rows, ROW * i + NAME_LEN),
    )
}

// The word is the second word of declaration i.
fn is_second(text: &[u8], rows: &[u16], i: usize, word: &[u8]) -> bool
    requires { i ≤ 512 }
    ensures { result ≡ is_word word.now (decl_at text.now rows.now i).second }
{
    let n = number(rows, ROW * i + SECOND_LEN);
    n != 0 && word == part(text, number(rows, ROW * i + SECOND_START), n)
}

// The word is its name or its string, in the class.
fn knows(text: &[u8], rows: &[u16], i: usize, class: usize, word: &[u8]) -> bool
    requires { i ≤ 512 }
    ensures { result ≡ knows class word.now (decl_at text.now rows.now i) }
{
    serves(class, number(rows, ROW * i))
        && (is_name(text, rows, i, word) || is_second(text, rows, i, word))
}

// The word is its name, and this is its class.
fn named(text: &[u8], rows: &[u16], i: usize, class: usize, word: &[u8]) -> bool
    requires { i ≤ 512 }
    ensures { result ≡ named class word.now (decl_at text.now rows.now i) }
{
    number(rows, ROW * i) == class && is_name(text, rows, i, word)
}

// The word is declared by it.
fn declares(text: &[u8], rows: &[u16], i: usize, word: &[u8]) -> bool
    requires { i ≤ 512 }
    ensures { result ≡ declares word.now (decl_at text.now rows.now i) }
{
    is_name(text, rows, i, word)
        || number(rows, ROW * i) != OPERATION && is_second(text, rows, i, word)
}

// It has the value in the class.
fn counts(rows: &[u16], i: usize, class: usize, v: usize) -> bool
    requires { i ≤ 512 }
    ensures { result ≡ counts class v (get_or rows.now (8 * i) 0) (get_or rows.now (8 * i + 1) 0) }
{
    v == number(rows, ROW * i + VALUE) && serves(class, number(rows, ROW * i))
}

// The index by names

// What the hash of a word of a class begins with: a token of both sides is looked up in both classes of tokens.
fn seed(class: usize) -> usize
    ensures same { result ≡ seed_of class }
    ensures low { result < 281474976710656 }
{
    match class {
        OUTPUT | BOTH => INPUT,
        _ => class % MODULUS,
    }
}

// The chain of a word of a class, by a key.
fn bucket(key: usize, class: usize, word: &[u8]) -> usize
    requires { key < 65536 }
    ensures value { result ≡ bucket_of key class word.now }
    ensures upper_bound { result < 511 }
{
    let mut h = seed(class);
    for &b in word {
        h = (h * key + usize::from(b)) % MODULUS;
    }
    h % BUCKETS
}

// Node k is put before the chain b.
fn push_node(rows: &mut [u16], b: usize, k: usize)
    requires { (length rows.old ≡ 6017) × (b < 511) × (k < 1024) }
    ensures { rows.new ≡ push_rows rows.old b k }
{
    rows[LINKS + k] = rows[HEADS + b];
    rows[HEADS + b] = (k + 1) as u16;
}

// Row i is put before the chain of its second word, where it has one.
fn push_second(text: &[u8], rows: &mut [u16], key: usize, i: usize)
    requires { (length rows.old ≡ 6017) × (key < 65536) × (i < 512) }
    ensures { rows.new ≡ push_second key text.now rows.old i }
{
    let len = number(rows, ROW * i + SECOND_LEN);
    if len == 0 {
        return;
    }
    let class = number(rows, ROW * i);
    let word = part(text, number(rows, ROW * i + SECOND_START), len);
    let b = bucket(key, class, word);
    push_node(rows, b, 2 * i + 1);
}

// Row i is put before the chain of its name.
fn push_name(text: &[u8], rows: &mut [u16], key: usize, i: usize)
    requires { (length rows.old ≡ 6017) × (key < 65536) × (i < 512) }
    ensures { rows.new ≡ push_name key text.now rows.old i }
{
    let name = part(
        text,
        number(rows, ROW * i + NAME_START),
        number(rows, ROW * i + NAME_LEN),
    );
    let b = bucket(key, number(rows, ROW * i), name);
    push_node(rows, b, 2 * i);
}

// No chain has a node, and the key is this one.
fn clear_heads(rows: &mut [u16], key: usize)
    requires { (length rows.old ≡ 6017) × (key < 65536) }
    ensures kept { RowsKept rows.old rows.new }
    ensures clear { (b : ℕ) → b < 511 → head_at rows.new b ≡ 0 }
    ensures keyed { key_of rows.new ≡ key }
{
    rows[HEADS..HEADS + BUCKETS].fill(0);
    rows[KEY] = key as u16;
}

// The first node of the chain b, where it has one: node k stands in the rows as k + 1.
fn first_node(rows: &[u16], b: usize) -> Option<usize>
    requires { b < 511 }
    ensures same { node_of result ≡ head_at rows.now b }
    ensures low { IfSome result (λ k. k < 65535) }
{
    number(rows, HEADS + b).checked_sub(1)
}

// The node after node k. Nodes rise in an index; the test makes a search end on any rows.
fn next_node(rows: &[u16], k: usize) -> Option<usize>
    requires { k < 65535 }
    ensures same { node_of result ≡ next_of rows.now (k + 1) }
    ensures up { IfSome result (λ q. (k < q) × (q < 65535)) }
{
    let p = number(rows, LINKS + k);
    if k + 1 < p { Some(p - 1) } else { None }
}

// The first n rows are put into the chains of their words by a key, the last row first.
fn build(text: &[u8], rows: &mut [u16], n: usize, key: usize)
    requires { (length rows.old ≡ 6017) × (n ≤ 512) × (key < 65536) }
    ensures index { Kept text.now rows.new n }
    ensures rows { RowsKept rows.old rows.new }
{
    clear_heads(rows, key);
    for i in (0..n).rev() {
        push_second(text, rows, key, i);
        push_name(text, rows, key, i);
    }
}

// How many nodes the chain b has.
fn nodes_of(rows: &[u16], b: usize) -> usize
    requires { b < 511 }
{
    let mut count: usize = 0;
    let mut node = first_node(rows, b);
    // no range: a node says which comes next
    while let Some(k) = node {
        count += 1;
        node = next_node(rows, k);
    }
    count
}

// How many nodes the longest chain has.
fn longest(rows: &[u16]) -> usize {
    let mut most = 0;
    for b in 0..BUCKETS {
        most = most.max(nodes_of(rows, b));
    }
    most
}

// The first key with no long chain; where there is none, that with the shortest longest one. The rows have the chains of the first key.
fn best_key(text: &[u8], rows: &mut [u16], n: usize) -> usize
    requires { (length rows.old ≡ 6017) × (n ≤ 512) }
    ensures low { result < 65536 }
    ensures rows { RowsKept rows.old rows.new }
{
    let mut best = FIRST_KEY;
    let mut least = longest(rows);
    for key in (FIRST_KEY + KEY_STEP..LAST_KEY).step_by(KEY_STEP) {
        if least <= LONG {
            return best;
        }
        build(text, rows, n, key);
        let k = longest(rows);
        if k < least {
            best = key;
            least = k;
        }
    }
    best
}

// The first n rows are put into the chains of their words. Which words share a chain depends on a key: where a chain is long, other keys are tried.
pub fn index(text: &[u8], rows: &mut [u16], n: usize)
    requires { (length rows.old ≡ 6017) × (n ≤ 512) }
    ensures index { Kept text.now rows.new n }
    ensures rows { RowsKept rows.old rows.new }
    ensures held { (t : List ℕ) → held t rows.new n ≡ held t rows.old n }
{
    build(text, rows, n, FIRST_KEY);
    if n <= FEW || longest(rows) <= LONG {
        return;
    }
    let key = best_key(text, rows, n);
    build(text, rows, n, key);
}

// The row

// The value of a part in a class, where it has one.
pub fn find_value(
    text: &[u8],
    rows: &[u16],
    n: usize,
    class: usize,
    start: usize,
    len: usize,
) -> Option<usize>
    requires { Kept text.now rows.now n }
    ensures same { result ≡ answer_of (find (part text.now start len) (knowns_in class (held text.now rows.now n))) }
    ensures low { IfSome result (λ v. v < 65536) }
{
    let word = part(text, start, len);
    let mut node = first_node(rows, bucket(number(rows, KEY), class, word));
    // no range: a node says which comes next
    while let Some(k) = node {
        let i = k / 2;
        if n <= i {
            return None;
        }
        if knows(text, rows, i, class, word) {
            return Some(number(rows, ROW * i + VALUE));
        }
        node = next_node(rows, k);
    }
    None
}

// The first declaration of the class that has the part as its name.
pub fn find_row(
    text: &[u8],
    rows: &[u16],
    n: usize,
    class: usize,
    start: usize,
    len: usize,
) -> Option<usize>
    requires { Kept text.now rows.now n }
    ensures same { result ≡ answer_of (index_of class (part text.now start len) 0 (held text.now rows.now n)) }
    ensures below { IfSome result (λ i. i < n) }
{
    let word = part(text, start, len);
    let mut node = first_node(rows, bucket(number(rows, KEY), class, word));
    // no range: a node says which comes next
    while let Some(k) = node {
        let i = k / 2;
        if n <= i {
            return None;
        }
        if named(text, rows, i, class, word) {
            return Some(i);
        }
        node = next_node(rows, k);
    }
    None
}

// The class has the part as a name or string.
pub fn is_known(text: &[u8], rows: &[u16], n: usize, class: usize, start: usize, len: usize) -> bool
    requires { Kept text.now rows.now n }
    ensures { result ≡ given (find (part text.now start len) (knowns_in class (held text.now rows.now n))) }
{
    find_value(text, rows, n, class, start, len).is_some()
}

// There is a declaration of the class that has the part as its name.
pub fn has_row(text: &[u8], rows: &[u16], n: usize, class: usize, start: usize, len: usize) -> bool
    requires { Kept text.now rows.now n }
    ensures { result ≡ given (index_of class (part text.now start len) 0 (held text.now rows.now n)) }
{
    find_row(text, rows, n, class, start, len).is_some()
}

// The part is declared in some class. The index goes by classes, so each row is asked: a lookup that failed asks this, for its fault.
pub fn is_declared(text: &[u8], rows: &[u16], n: usize, start: usize, len: usize) -> bool
    requires { Kept text.now rows.now n }
    ensures { result ≡ declared_in (part text.now start len) (held text.now rows.now n) }
{
    let word = part(text, start, len);
    for i in 0..n {
        if declares(text, rows, i, word) {
            return true;
        }
    }
    false
}

// The class has the value, whatever the text.
pub fn has_value(rows: &[u16], n: usize, class: usize, v: usize) -> bool
    requires { n ≤ 512 }
    ensures { (text : List ℕ) → result ≡ member v (values_of (knowns_in class (held text rows.now n))) }
{
    for i in 0..n {
        if counts(rows, i, class, v) {
            return true;
        }
    }
    false
}

// Words looked up

// A fault's number, or 0 and a value.
#[derive(Clone, Copy, Debug, PartialEq, Eq)]
pub struct Looked {
    pub fault: u16,
    pub value: usize,
}

// What was looked up, in numbers.
pub fn numbers_of(found: Result<usize, Fault>) -> Looked
    ensures { MatchResult found (λ v. (result.fault ≡ 0) × (result.value ≡ v)) (λ f. (result.fault ≡ fault_number f) × (result.value ≡ 0)) }
{
    match found {
        Ok(value) => Looked { fault: 0, value },
        Err(fault) => Looked {
            fault: u16::from(fault),
            value: 0,
        },
    }
}

// The fault of a part that is not in the class wanted.
fn elsewhere(text: &[u8], rows: &[u16], n: usize, start: usize, len: usize) -> Fault
    requires { Kept text.now rows.now n }
    ensures { fault_number result ≡ elsewhere_in (held text.now rows.now n) (part text.now start len) }
{
    if is_declared(text, rows, n, start, len) {
        Fault::NotWanted
    } else {
        Fault::Undeclared
    }
}

// The value of a word in a class.
pub fn value_of(
    text: &[u8],
    rows: &[u16],
    n: usize,
    class: usize,
    start: usize,
    len: usize,
) -> Result<usize, Fault>
    requires { Kept text.now rows.now n }
    ensures looks { (kind : ℕ) → Looks result (lookup_in (held text.now rows.now n) class (word_of text.now kind start len)) }
    ensures low { IfOk result (λ v. v < 65536) }
{
    match find_value(text, rows, n, class, start, len) {
        Some(v) => Ok(v),
        None => Err(elsewhere(text, rows, n, start, len)),
    }
}

// The declaration of a class that has the name.
fn row_of(
    text: &[u8],
    rows: &[u16],
    n: usize,
    class: usize,
    start: usize,
    len: usize,
) -> Result<usize, Fault>
    requires { Kept text.now rows.now n }
    ensures looks { (kind : ℕ) → Looks result (row_in class (held text.now rows.now n) (word_of text.now kind start len)) }
    ensures low { IfOk result (λ i. i < n) }
{
    match find_row(text, rows, n, class, start, len) {
        Some(i) => Ok(i),
        None => Err(elsewhere(text, rows, n, start, len)),
    }
}

// The declaration of an operation.
pub fn operation_of(
    text: &[u8],
    rows: &[u16],
    n: usize,
    start: usize,
    len: usize,
) -> Result<usize, Fault>
    requires { Kept text.now rows.now n }
    ensures looks { (kind : ℕ) → Looks result (operation_in (held text.now rows.now n) (word_of text.now kind start len)) }
    ensures low { IfOk result (λ i. i < n) }
{
    row_of(text, rows, n, OPERATION, start, len)
}

// The declaration of a section of operators.
pub fn operators_of(
    text: &[u8],
    rows: &[u16],
    n: usize,
    start: usize,
    len: usize,
) -> Result<usize, Fault>
    requires { Kept text.now rows.now n }
    ensures looks { (kind : ℕ) → Looks result (operators_row (held text.now rows.now n) (word_of text.now kind start len)) }
    ensures low { IfOk result (λ i. i < n) }
{
    row_of(text, rows, n, OPERATORS, start, len)
}

// The declaration of a rule.
pub fn rule_of(
    text: &[u8],
    rows: &[u16],
    n: usize,
    start: usize,
    len: usize,
) -> Result<usize, Fault>
    requires { Kept text.now rows.now n }
    ensures looks { (kind : ℕ) → Looks result (rule_in (held text.now rows.now n) (word_of text.now kind start len)) }
    ensures low { IfOk result (λ i. i < n) }
{
    if has_row(text, rows, n, OPERATION, start, len) {
        return Err(Fault::NotWanted);
    }
    row_of(text, rows, n, RULE, start, len)
}

// The class of a type that is one of the first `before` declarations.
pub fn type_of(
    text: &[u8],
    rows: &[u16],
    n: usize,
    before: usize,
    start: usize,
    len: usize,
) -> Result<usize, Fault>
    requires { Kept text.now rows.now n × (before ≤ n) }
    ensures looks { (kind : ℕ) → Looks result (type_in (held text.now rows.now n) (held text.now rows.now before) (word_of text.now kind start len)) }
    ensures low { IfOk result (λ c. c < 8 + before) }
{
    if let Some(i) = find_row(text, rows, before, TYPE, start, len) {
        return Ok(VALUES + i);
    }
    if has_row(text, rows, n, TYPE, start, len) {
        return Err(Fault::Undeclared);
    }
    Err(elsewhere(text, rows, n, start, len))
}
