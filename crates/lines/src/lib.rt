// Reads lines from blocks of input in one pass: a usual line at once, and any other from where that left off, a byte at a time.
#![tactic(auto, using(crate::proofs::Going::going), unfolding(reader::specs::Reader::begun))]

ghost use Rattle.std.specs.Prelude.{◌≡◌, ◌+◌, ◌≤◌, drop, length};
ghost use Rattle.lines.specs.Blocks.{fed, GoesOn, DigitsGoOn};

use reader::{Fields, Reader, Word};

// What a block of input gave: whether the line is whole, where the reader stands at its newline or at the block's end, and
// the place behind that.
#[derive(Clone, Copy, PartialEq, Eq, Debug)]
pub struct Fed {
    pub whole: bool,
    pub reader: Reader,
    pub next: usize,
}

// Reads block from at to the line's newline, or to its end, a byte at a time.
fn read_on(r: Reader, block: &[u8], at: usize) -> Fed
    ensures { result ≡ fed r (drop at block.now) at }
{
    let mut reader = r;
    for i in at..block.len() {
        let b = block[i];
        if b == b'\n' {
            return Fed {
                whole: true,
                reader,
                next: i + 1,
            };
        }
        reader = reader.step(b);
    }
    Fed {
        whole: false,
        reader,
        next: at.max(block.len()),
    }
}

// ---- A usual line: a word, and up to three numbers of up to 19 digits. Where it stops, or is no usual line, the reader is
// handed on as it stands there.

// The room for a usual line: 8 letters, three times 19 digits, and a byte behind each. (With so much left of the block its end
// is not looked for.)
const ROOM: usize = 69;

// What bytes of a block are worth, and the place behind them.
#[derive(Clone, Copy)]
struct Taken {
    value: u64,
    next: usize,
}

// Where in a block the reader stands.
#[derive(Clone, Copy)]
struct Reached {
    reader: Reader,
    next: usize,
}

// The letters from a line's start on.
fn letters(block: &[u8], at: usize) -> Taken
    requires { at + 8 ≤ length block.now }
    ensures goes { GoesOn block.now (Reader.Letters 0) at (Reader.Letters result.value) result.next }
    ensures short { result.next ≤ at + 8 }
{
    let mut value = 0;
    for i in at..at + 8 {
        let b = block[i];
        if !b.is_ascii_lowercase() {
            return Taken { value, next: i };
        }
        value = value * 256 + u64::from(b);
    }
    Taken {
        value,
        next: at + 8,
    }
}

// The digits behind a field's first one.
fn digits(block: &[u8], at: usize, first: u64) -> Taken
    requires { (at + 18 ≤ length block.now) × (first ≤ 9) }
    ensures goes { DigitsGoOn block.now first at result.value result.next }
    ensures short { result.next ≤ at + 18 }
{
    if first == 0 {
        return Taken { value: 0, next: at };
    }
    let mut value = first;
    for i in at..at + 18 {
        let b = block[i];
        if !b.is_ascii_digit() {
            return Taken { value, next: i };
        }
        value = value * 10 + u64::from(b - b'0');
    }
    Taken {
        value,
        next: at + 18,
    }
}

// A number behind a tab and the tab behind it. A reader that stands elsewhere stays there.
fn field(reader: Reader, block: &[u8], at: usize) -> Reached
    requires { at + 20 ≤ length block.now }
    ensures goes { GoesOn block.now reader at result.reader result.next }
    ensures short { result.next ≤ at + 20 }
{
    let Reader::Tab(w, fs) = reader else {
        return Reached { reader, next: at };
    };
    let b = block[at];
    if !b.is_ascii_digit() {
        return Reached { reader, next: at };
    }
    let Taken { value, next: end } = digits(block, at + 1, u64::from(b - b'0'));
    if block[end] != b'\t' {
        return Reached {
            reader: Reader::Digits(w, fs, value),
            next: end,
        };
    }
    Reached {
        reader: reader::pushed_on(w, fs, value),
        next: end + 1,
    }
}

// The numbers behind a word and its tab.
fn numbers(w: Word, block: &[u8], at: usize) -> Reached
    requires { at + 60 ≤ length block.now }
    ensures { GoesOn block.now (Reader.Tab w Fields.Without) at result.reader result.next }
{
    let first = field(Reader::Tab(w, Fields::Without), block, at);
    let second = field(first.reader, block, first.next);
    field(second.reader, block, second.next)
}

// A usual line from its first byte on.
fn usual(block: &[u8], at: usize) -> Reached
    requires { at + 69 ≤ length block.now }
    ensures { GoesOn block.now (Reader.Letters 0) at result.reader result.next }
{
    let Taken { value, next } = letters(block, at);
    if block[next] != b'\t' {
        return Reached {
            reader: Reader::Letters(value),
            next,
        };
    }
    match reader::word_of(value) {
        Some(w) => numbers(w, block, next + 1),
        None => Reached {
            reader: Reader::Broken,
            next: next + 1,
        },
    }
}

// Reads block from at to the line's newline, or to its end.
pub fn feed(r: Reader, block: &[u8], at: usize) -> Fed
    ensures { result ≡ fed r (drop at block.now) at }
{
    if r.is_fresh() && ROOM <= block.len().saturating_sub(at) {
        let Reached { reader, next } = usual(block, at);
        return read_on(reader, block, next);
    }
    read_on(r, block, at)
}
