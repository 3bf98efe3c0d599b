// Reads a transcript line a byte at a time.
#![tactic(auto)]

ghost use Rattle.std.specs.Prelude.{◌≡◌, ◌+◌, ◌*◌, ◌^◌, ◌≤◌, MatchOption};
ghost use Rattle.reader.specs.Reader.{word_of, pushed, step_of, ended, finished, fresh};

// The words of both modes.
#[derive(Clone, Copy, PartialEq, Eq, Debug)]
pub enum Word {
    Roles,
    Lattice,
    Above,
    Permit,
    Clear,
    Label,
    Run,
    Open,
    Close,
    Start,
    End,
    Activate,
    Drop,
    Assign,
    Deassign,
    Grant,
    Revoke,
    Reclear,
}

// The numbers of a line: three at most.
#[derive(Clone, Copy, PartialEq, Eq, Debug)]
pub enum Fields {
    Without,
    One(u64),
    Two(u64, u64),
    Three(u64, u64, u64),
}

// A line that was read. Where there is none, it gets refusal 10.
#[derive(Clone, Copy, PartialEq, Eq, Debug)]
pub struct Line {
    pub word: Word,
    pub fields: Fields,
}

// Where in a line the reader stands.
#[derive(Clone, Copy, PartialEq, Eq, Debug)]
pub enum Reader {
    // In the word: its letters so far, a byte each in one number.
    Letters(u64),
    // Behind a tab.
    Tab(Word, Fields),
    // Behind a field's digits: what they are worth so far. Behind the digit 0 that began it no other may stand.
    Digits(Word, Fields, u64),
    // The line is refused, whatever follows.
    Broken,
}

// The word whose letters are packed in a number, a byte each and the first one highest: `run` is (114 * 256 + 117) * 256 + 110.
pub fn word_of(letters: u64) -> Option<Word>
    ensures { result ≡ word_of letters }
{
    match letters {
        491495646579 => Some(Word::Roles),
        30506450281915237 => Some(Word::Lattice),
        418263299685 => Some(Word::Above),
        123581013780852 => Some(Word::Permit),
        427020345714 => Some(Word::Clear),
        465490306412 => Some(Word::Label),
        7501166 => Some(Word::Run),
        1869636974 => Some(Word::Open),
        427021005669 => Some(Word::Close),
        495873782388 => Some(Word::Start),
        6647396 => Some(Word::End),
        7017580640679851109 => Some(Word::Activate),
        1685221232 => Some(Word::Drop),
        107148485420910 => Some(Word::Assign),
        7234295524925990766 => Some(Word::Deassign),
        444300619380 => Some(Word::Grant),
        125780104276837 => Some(Word::Revoke),
        32199625039765874 => Some(Word::Reclear),
        _ => None,
    }
}

// The fields with one more behind them; refused when there are three already.
#[tactic(auto, unfolding(crate::specs::Reader::pushed, crate::specs::Reader::tabbed, crate::specs::Line::behind))]
pub fn pushed_on(word: Word, fields: Fields, n: u64) -> Reader
    ensures { result ≡ pushed word fields n }
{
    match fields {
        Fields::Without => Reader::Tab(word, Fields::One(n)),
        Fields::One(a) => Reader::Tab(word, Fields::Two(a, n)),
        Fields::Two(a, b) => Reader::Tab(word, Fields::Three(a, b, n)),
        Fields::Three(..) => Reader::Broken,
    }
}

// The number v with the digit d behind it, if it is below 2^64.
fn with_digit(v: u64, d: u8) -> Option<u64>
    ensures { MatchOption result (2 ^ 64 ≤ v * 10 + d) (λ n. n ≡ v * 10 + d) }
{
    v.checked_mul(10)?.checked_add(u64::from(d))
}

impl Reader {
    // The reader at a line's first byte.
    pub fn new() -> Self
        ensures { result ≡ Reader.Letters 0 }
    {
        Reader::Letters(0)
    }

    // The reader one byte further on.
    #[tactic(auto, using(crate::proofs::Stepping::step_laws), unfolding(crate::specs::Reader::begun))]
    pub fn step(self, b: u8) -> Self
        ensures { result ≡ step_of self b }
    {
        match self {
            Reader::Letters(x) => match b {
                b'\t' => match word_of(x) {
                    Some(w) => Reader::Tab(w, Fields::Without),
                    None => Reader::Broken,
                },
                b'a'..=b'z' if x < 1 << 56 => Reader::Letters(x * 256 + u64::from(b)),
                _ => Reader::Broken,
            },
            Reader::Tab(w, fs) => match b {
                b'0'..=b'9' => Reader::Digits(w, fs, u64::from(b - b'0')),
                _ => Reader::Broken,
            },
            Reader::Digits(w, fs, v) => match b {
                b'\t' => pushed_on(w, fs, v),
                b'0'..=b'9' if 0 < v => match with_digit(v, b - b'0') {
                    Some(n) => Reader::Digits(w, fs, n),
                    None => Reader::Broken,
                },
                _ => Reader::Broken,
            },
            Reader::Broken => Reader::Broken,
        }
    }

    // Whether no byte of the line has been read.
    #[tactic(auto, unfolding(crate::specs::Reader::fresh))]
    pub fn is_fresh(self) -> bool
        ensures { result ≡ fresh self }
    {
        matches!(self, Reader::Letters(0))
    }

    // The line that ends where a tab would have stood.
    #[tactic(auto, unfolding(crate::specs::Reader::ended))]
    fn ended(self) -> Option<Line>
        ensures { result ≡ ended self }
    {
        match self {
            Reader::Tab(word, fields) => Some(Line { word, fields }),
            _ => None,
        }
    }

    // What the line is, at its newline. (step is not called here, so that it stands in one loop only and is compiled into it.)
    #[tactic(auto, using(crate::proofs::Stepping::step_laws), unfolding(crate::specs::Reader::finished, crate::specs::Reader::ended, crate::specs::Reader::begun))]
    pub fn finish(self) -> Option<Line>
        ensures { result ≡ finished self }
    {
        match self {
            Reader::Letters(x) => {
                let word = word_of(x)?;
                Some(Line {
                    word,
                    fields: Fields::Without,
                })
            }
            Reader::Digits(w, fs, n) => pushed_on(w, fs, n).ended(),
            Reader::Tab(..) | Reader::Broken => None,
        }
    }
}
