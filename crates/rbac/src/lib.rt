// The arguments of the fourteen role requests.
#![tactic(auto)]

ghost use Rattle.std.specs.Prelude.{◌≡◌};
ghost use Rattle.bits.specs.Words.{◌and◌};
ghost use Rattle.requests.specs.Request.{ask};
ghost use Rattle.rbac.specs.Roles.{is_code, in_range};

// The largest value of each argument, a row for each code from 1 on; one that is not listed must be 0, and the roles of a start
// and the roles and the bound of a set are any 64-bit numbers.
static LIMITS: [[u64; 3]; 14] = [
    [31, 63, 7],
    [31, 63, 7],
    [31, 63, 18446744073709551615],
    [31, 0, 0],
    [31, 63, 0],
    [31, 63, 0],
    [63, 63, 0],
    [63, 63, 0],
    [63, 7, 63],
    [63, 7, 63],
    [15, 18446744073709551615, 18446744073709551615],
    [15, 18446744073709551615, 18446744073709551615],
    [63, 63, 0],
    [63, 63, 0],
];

// Whether the code is 1 to 14 and its arguments are in range.
pub fn in_range(code: u64, a: u64, b: u64, c: u64) -> bool
    ensures { result ≡ (is_code (ask code a b c) and in_range (ask code a b c)) }
{
    (1..=14).contains(&code) && requests::within(LIMITS[code as usize - 1], a, b, c)
}
