// Words as sets of the numbers 0 to 63.
#![tactic(auto)]

ghost use Rattle.std.specs.Prelude.{◌≡◌};
ghost use Rattle.std.specs.Iterator.{at_most};
ghost use Rattle.bits.specs.Words;
ghost use Rattle.bits.specs.Sets;
ghost use Rattle.bits.specs.Words.{◌with◌};
ghost use Rattle.bits.specs.Sets.{◌without◌};

// Whether i is a member of w; no number past 63 is.
pub fn has(w: u64, i: usize) -> bool
    ensures { result ≡ Words.has w i }
{
    if 63 < i {
        return false;
    }
    (w >> i) % 2 == 1
}

// The word w with the member i; w itself where i is past 63.
pub fn with(w: u64, i: usize) -> u64
    ensures { result ≡ w with i }
{
    if 63 < i {
        return w;
    }
    w | (1 << i)
}

// The word w without the member i.
pub fn without(w: u64, i: usize) -> u64
    ensures { result ≡ w without i }
{
    if 63 < i {
        return w;
    }
    w & !(1 << i)
}

// Whether every member of a is one of b.
pub fn subset(a: u64, b: u64) -> bool
    ensures { result ≡ Words.subset a b }
{
    a & !b == 0
}

// Whether a and b have a member in common.
pub fn overlap(a: u64, b: u64) -> bool
    ensures { result ≡ Sets.overlap a b }
{
    a & b != 0
}

// The members of a and of b together.
pub fn join(a: u64, b: u64) -> u64
    ensures { result ≡ Sets.join a b }
{
    a | b
}

// The members that a and b have in common.
pub fn meet(a: u64, b: u64) -> u64
    ensures { result ≡ Sets.meet a b }
{
    a & b
}

// How many members w has.
pub fn size(w: u64) -> u64
    ensures { result ≡ Sets.size w }
{
    u64::count_ones(w) as u64
}

// The lowest member of w; 0 where it is empty.
pub fn lowest(w: u64) -> usize
    ensures { Sets.IsLowest w result }
{
    (u64::trailing_zeros(w) % 64) as usize
}

// The word w without its lowest member.
pub fn rest(w: u64) -> u64
    ensures { Sets.IsRest w result }
{
    if w == 0 {
        return 0;
    }
    w & (w - 1)
}

// The members of a word that are still to come, lowest first.
#[derive(Clone, Copy)]
pub struct Members {
    pub left: u64,
}

impl Members {
    // All members of w.
    pub fn of(w: u64) -> Members
        ensures { result.left ≡ w }
    {
        Members { left: w }
    }
}

impl Iterator for Members {
    type Item = usize;

    ghost next_gives = { λ before given after. Sets.Takes before.left given after.left };

    ghost remaining = { λ members. at_most members.left };

    fn next(&mut self) -> Option<usize> {
        if self.left == 0 {
            return None;
        }
        let member = lowest(self.left);
        self.left = rest(self.left);
        Some(member)
    }
}
