// Labels by value, and how two of them stand.
#![tactic(auto)]

ghost use Rattle.std.specs.Prelude.{◌≡◌};
ghost use Rattle.machine.specs.Label.{class, brands, stands, equal_or_above};
ghost use Rattle.machine.specs.Number.{standing_number};

// How one label stands to another.
#[derive(Clone, Copy, PartialEq, Eq, Debug)]
pub enum Standing {
    Equal = 0,
    Above = 1,
    Below = 2,
    Apart = 3,
}

impl Standing {
    // Whether the first label dominates the second.
    pub fn equal_or_above(self) -> bool
        ensures { result ≡ equal_or_above self }
    {
        matches!(self, Standing::Equal | Standing::Above)
    }

    // Its number for callers: 0 to 3, in the order above.
    pub fn number(self) -> u64
        ensures { result ≡ standing_number self }
    {
        self as u64
    }
}

// A label: a class and a set of brands in one number, 0 to 31.
#[derive(Clone, Copy, PartialEq, Eq, Debug)]
pub struct Label {
    pub number: u64,
}

impl Label {
    // Its class, 0 to 3.
    pub fn class(self) -> u64
        ensures { result ≡ class self.number }
    {
        self.number / 8
    }

    // Its set of three brands, a bit each.
    pub fn set(self) -> u64
        ensures { result ≡ brands self.number }
    {
        self.number % 8
    }

    // How it stands to another.
    pub fn compare(self, other: Label) -> Standing
        ensures { result ≡ stands self.number other.number }
    {
        if self == other {
            Standing::Equal
        } else if other.class() <= self.class() && bits::subset(other.set(), self.set()) {
            Standing::Above
        } else if self.class() <= other.class() && bits::subset(self.set(), other.set()) {
            Standing::Below
        } else {
            Standing::Apart
        }
    }
}
