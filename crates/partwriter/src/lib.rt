// An object's words, appended to lent bytes.
#![tactic(auto)]

ghost use Rattle.std.specs.Prelude.{List, [], ◌∷◌, ◌++◌, ◌≡◌, ◌+◌, ◌*◌, ◌-◌, ◌<◌, ◌≤◌, length, take, set, get_or, replicate};
ghost use Rattle.machine.specs.Bytes.{count, words_of};
ghost use Rattle.parts.specs.Form.{packed};
ghost use Rattle.partwriter.specs.Put.{Leaves, Puts, name_here, front};

use scanner::WordAt;

// `PO`, the first word of an object.
const MARK: u16 = 20559;

// What the front of an object tells: the bytes of its part, its rules and its pairs.
#[derive(Clone, Copy, Debug, PartialEq, Eq)]
pub struct Sizes {
    pub part: u16,
    pub rules: u16,
    pub pairs: u16,
}

// The whole words of the bytes.
pub fn room(object: &[u8]) -> usize
    ensures { (result ≡ count object.now) × (result < 9223372036854775808) }
{
    machine::count_words(object)
}

// The count that c words make: one above the room where they are more.
pub fn counted(object: &[u8], c: usize) -> usize
    ensures { Puts object.now c [] object.now result }
{
    c.min(room(object) + 1)
}

// One more word. Past the end nothing is written, and the count stays one above the room.
pub fn put(object: &mut [u8], c: usize, x: u16) -> usize
    ensures { Puts object.old c (x ∷ []) object.new result }
{
    let n = room(object);
    if c < n {
        buffers::put_word(object, c, x);
        c + 1
    } else {
        n + 1
    }
}

pub fn put_two(object: &mut [u8], c: usize, x: u16, y: u16) -> usize
    ensures { Puts object.old c (x ∷ y ∷ []) object.new result }
{
    let n = put(object, c, x);
    put(object, n, y)
}

// The bytes, a word each.
pub fn put_bytes(object: &mut [u8], c: usize, bytes: &[u8]) -> usize
    ensures { Puts object.old c bytes.now object.new result }
{
    let mut n = counted(object, c);
    for byte in bytes {
        n = put(object, n, u16::from(*byte));
    }
    n
}

// The name that stands here: its place in the part, its length, its bytes.
pub fn put_name(object: &mut [u8], c: usize, text: &[u8], name: WordAt, moved: usize) -> usize
    requires { (name.start + name.len ≤ length text.now) × (length text.now < 65536) }
    ensures { Puts object.old c (name_here text.now name.start name.len moved) object.new result }
{
    let place = name.start.saturating_sub(moved) as u16;
    let n = put_two(object, c, place, name.len as u16);
    put_bytes(object, n, &text[name.start..name.start + name.len])
}

// The byte at i and the next one as a word, 0 behind the last.
fn pair_at(common: &[u8], i: usize) -> u16
    requires { i < length common.now }
    ensures { result ≡ get_or common.now i 0 * 256 + get_or common.now (i + 1) 0 }
{
    let low = common.get(i + 1).copied().unwrap_or(0);
    u16::from_be_bytes([common[i], low])
}

// The bytes, two a word.
pub fn put_packed(object: &mut [u8], c: usize, common: &[u8]) -> usize
    ensures { Puts object.old c (packed common.now) object.new result }
{
    let mut n = counted(object, c);
    for i in 0..common.len().div_ceil(2) {
        n = put(object, n, pair_at(common, 2 * i));
    }
    n
}

// The front of an object: its mark, room for the number of words, the sizes, the common part.
pub fn put_front(object: &mut [u8], common: &[u8], sizes: Sizes) -> usize
    requires { length common.now < 65536 }
    ensures { Puts object.old 0 (front common.now sizes) object.new result }
{
    let a = put_two(object, 0, MARK, 0);
    let b = put_two(object, a, 0, common.len() as u16);
    let c = put_two(object, b, sizes.part, sizes.rules);
    let d = put(object, c, sizes.pairs);
    put_packed(object, d, common)
}

// The word at i anew: for what is known last. Past the end nothing is written.
pub fn set_word(object: &mut [u8], i: usize, x: u16)
    ensures { Leaves object.old (set (words_of object.old) i x) object.new }
{
    if i < room(object) {
        buffers::put_word(object, i, x);
    }
}

// Zeros from the word c on.
pub fn zero_from(object: &mut [u8], c: usize)
    requires { c ≤ count object.old }
    ensures { Leaves object.old (take c (words_of object.old) ++ replicate (count object.old - c) 0) object.new }
{
    let end = 2 * room(object);
    object[2 * c..end].fill(0);
}
