// Transcripts in blocks of input and output.
#![tactic(auto)]

ghost use Rattle.std.specs.Prelude.{◌≡◌, ◌≢◌, ◌+◌, ◌≤◌, true, length, take};
ghost use Rattle.output.specs.Text.{Wrote, decimal, row, fitting};
ghost use Rattle.ledger.specs.Ledger.{SameLists};
ghost use Rattle.ledger.specs.Step.{unguarded};
ghost use Rattle.transcript.specs.Stream.{started, standing, closing, full, serving, IsServed};

use entries::Fault;
use ledger::Ledger;
use output::ROW;
use reader::Reader;

// Between two blocks of input: the number of the line that is being read, and its reader.
#[derive(Clone, Copy)]
pub struct Progress {
    pub number: u64,
    pub reader: Reader,
}

// How far a block was served: the bytes read of it, and those written to the output.
#[derive(Clone, Copy)]
pub struct Served {
    pub read: usize,
    pub written: usize,
}

// A line's number with its digits, which are counted up with it: no row has to divide.
#[derive(Drop)]
struct LineNumber {
    value: u64,
    digits: [u8; 21],
    width: usize,
    ghost shown: { take width digits ≡ decimal value },
}

impl LineNumber {
    // A number with its digits.
    fn new(value: u64) -> Self
        ensures { result.value ≡ value }
    {
        let mut digits = [0; 21];
        let width = output::put_number(&mut digits, value);
        LineNumber {
            value,
            digits,
            width,
        }
    }

    // Counts up by one.
    fn count_up(&mut self)
        requires { self.old.value ≢ u64.MAX }
        ensures { self.new.value ≡ self.old.value + 1 }
    {
        self.width = output::count_up(&mut self.digits, self.width);
        self.value += 1;
    }

    // Puts its row at a place of out and answers the place behind it; where out has not the room for a row, nothing.
    fn put_row(&self, out: &mut [u8], at: usize, answer: u64, spent: u64) -> usize
        ensures { Wrote out.old at (fitting out.old at (row self.now.value answer spent)) out.new result }
    {
        output::put_numbered(out, at, &self.digits, self.width, answer, spent)
    }
}

// Whether no line can be answered.
#[tactic(auto, using(bits::proofs::Truth::or_left, bits::proofs::Truth::false_or), unfolding(crate::specs::Stream::full))]
fn is_full(room: usize, number: u64) -> bool
    ensures { result ≡ full room number }
{
    room < ROW || number == u64::MAX
}

impl Progress {
    // Before the first byte of the input.
    pub fn start() -> Self
        ensures { result ≡ started }
    {
        Progress {
            number: 1,
            reader: Reader::new(),
        }
    }

    // Reads block, and writes a row to out for each line that ends in it, until the block is used up, out has no room for
    // another row, or the line numbers are used up.
    pub fn serve(&mut self, kept: &mut Ledger, block: &[u8], out: &mut [u8]) -> Served
        ensures lists { SameLists kept.old kept.new }
        ensures served { IsServed (serving unguarded (length out.old) true (standing self.old kept.old) block.now) block.now out.old (standing self.new kept.new) result.read result.written out.new }
    {
        let mut line = LineNumber::new(self.number);
        let mut read = 0;
        let mut written = 0;
        while read < block.len() && !is_full(out.len() - written, line.value) {
            let fed = lines::feed(self.reader, block, read);
            self.reader = fed.reader;
            read = fed.next;
            if !fed.whole {
                break;
            }
            let reply = kept.act(self.reader.finish());
            written = line.put_row(out, written, reply.answer, reply.spent);
            line.count_up();
            self.reader = Reader::new();
        }
        self.number = line.value;
        Served { read, written }
    }

    // At the end of the input: a line that was begun is refused, for its newline lacks.
    pub fn conclude(self, out: &mut [u8]) -> usize
        ensures wrote { Wrote out.old 0 (fitting out.old 0 (closing self.number self.reader)) out.new result }
        ensures upper_bound { result ≤ length out.old }
    {
        if self.reader.is_fresh() {
            return 0;
        }
        output::put_row(
            out,
            0,
            self.number,
            entries::fault_number(Fault::WrongForm),
            0,
        )
    }
}
