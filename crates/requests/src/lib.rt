// Requests as they come, and the numbers of their answers.
#![tactic(auto)]

ghost use Rattle.std.specs.Prelude.{◌≡◌};
ghost use Rattle.requests.specs.Request;
ghost use Rattle.requests.specs.Request.{ask};
ghost use Rattle.requests.specs.Answer.{refusal_number, number_of};

// Why a request, a set-up or a statement is refused, each with its number.
#[derive(Clone, Copy, PartialEq, Eq, Debug)]
pub enum Refusal {
    WrongLength = 12,
    Unsound = 13,
    NoImage = 14,
    BadCode = 15,
    BadArgument = 16,
    NoPermission = 17,
    BadListLength = 18,
    BadValue = 19,
    Cycle = 20,
    BadPair = 21,
    BadRate = 22,
    FullCount = 23,
}

// What a request comes to: yes or no, or a refusal.
pub type Answer = Result<bool, Refusal>;

// The number of a refusal.
pub fn refusal_number(r: Refusal) -> u64
    ensures { result ≡ refusal_number r }
{
    r as u64
}

// The number of an answer.
pub fn number(a: Answer) -> u64
    ensures { result ≡ number_of a }
{
    match a {
        Ok(yes) => u64::from(yes),
        Err(r) => refusal_number(r),
    }
}

// Whether each of three arguments is at most its largest value, whatever the code.
pub fn within(largest: [u64; 3], a: u64, b: u64, c: u64) -> bool
    ensures { result ≡ Request.within largest (ask 0 a b c) }
{
    if largest[0] < a {
        return false;
    }
    if largest[1] < b {
        return false;
    }
    c <= largest[2]
}
