// The lister: reads a program on standard input and prints its table, verdict and figure, or the number and line of its fault, and then shows the word at fault.
#![tactic(auto)]

ghost use Rattle.std.specs.Prelude.{◌≤◌, length, IfOk};
ghost use Rattle.std.specs.Counts.{IsPrefixLen};
ghost use Rattle.listing.specs.Written.{longest};
ghost use Rattle.lister.specs.Prints.{Prints, Counted, most};

use std::io;
use std::io::{Read, Write};

// One byte more than a program may have: enough to see that a text is over-long.
const KEPT: usize = base::TEXT_BYTES + 1;

// The bytes of the longest table.
const TABLE_BYTES: usize = 2 * base::TABLE_WORDS;

// The bytes of a piece.
const PIECE_BYTES: usize = 65536;

// As many pieces are read at most: an input ends long before they do.
const PIECES: u64 = 1 << 40;

// The length of a listing, and the answer that it is of.
#[derive(Clone, Copy)]
struct Printed {
    len: usize,
    answer: translator::Answer,
}

// The listing of an input of which at most the first 32,769 bytes are given, with the number of line feeds behind them.
fn list(kept: &[u8], feeds: usize, out: &mut [u8]) -> Printed
    requires { (feeds ≤ most) × (longest ≤ length out.old) }
    ensures prints { Prints kept.now feeds out.new result }
    ensures prefix_len { IsPrefixLen result.len out.new }
{
    let mut table = [0u8; TABLE_BYTES];
    let answer = translator::process(kept, &mut table);
    if answer.number == 0 {
        let len = listing::list_table(&table, answer.words, answer.finishing, answer.figure, out);
        return Printed { len, answer };
    }
    let line = listing::lines_before(kept, answer.start) + feeds;
    let len = listing::list_refusal(answer.number, line, out);
    Printed { len, answer }
}

// A piece of the input: its length, 0 at the input's end, and the line feeds up to its end.
#[derive(Clone, Copy, Debug, PartialEq, Eq)]
struct Piece {
    len: usize,
    feeds: usize,
}

// The next piece of the input, where `feeds` line feeds have been counted.
fn count_piece<R: Read>(input: &mut R, feeds: usize, buf: &mut [u8]) -> io::Result<Piece>
    requires { feeds ≤ most }
    ensures { IfOk result (λ r. Counted feeds buf.new r) }
{
    let len = input.read(buf)?;
    Ok(Piece {
        len,
        feeds: feeds + listing::line_feeds(&buf[..len]),
    })
}

// The line feeds from here to the input's end, piece by piece.
fn count_rest<R: Read>(input: &mut R) -> io::Result<usize>
    ensures { IfOk result (λ n. n ≤ most) }
{
    let mut buf = [0u8; PIECE_BYTES];
    let mut feeds = 0;
    for read in 0..PIECES {
        let piece = count_piece(input, feeds, &mut buf)?;
        if piece.len == 0 {
            break;
        }
        feeds = piece.feeds;
    }
    Ok(feeds)
}

// Reads until the buffer is full or the input ends, and says how many bytes it put at the buffer's start.
fn read_full<R: Read>(input: &mut R, buf: &mut [u8]) -> io::Result<usize>
    ensures { IfOk result (λ n. n ≤ length buf.new) }
{
    let mut n = 0;
    // no range: a read gives as many bytes as it likes
    while n < buf.len() {
        let more = input.read(&mut buf[n..])?;
        if more == 0 {
            return Ok(n);
        }
        n += more;
    }
    Ok(n)
}

// Shows the author the word at fault, on standard error: standard output has number and line alone.
fn show<W: Write>(output: &mut W, word: &[u8]) -> io::Result<()> {
    if word.is_empty() {
        return output.write_all(b"at: the end of the text\n");
    }
    output.write_all(b"at: ")?;
    output.write_all(word)?;
    output.write_all(b"\n")
}

fn main(rt: HostRuntime) -> io::Result<()> {
    let mut input = rt.stdin();
    let mut text = [0u8; KEPT];
    let n = read_full(&mut input, &mut text)?;
    let feeds = if n == KEPT {
        count_rest(&mut input)?
    } else {
        0
    };
    let mut out = [0u8; listing::LONGEST];
    let printed = list(&text[..n], feeds, &mut out);
    let len = printed.len;
    rt.stdout().write_all(&out[..len])?;
    let answer = printed.answer;
    if answer.number != 0 {
        show(&mut rt.stderr(), translator::fault_word(&text[..n], answer))?;
    }
    Ok(())
}
