// The transcript's output as bytes: the header, and rows written into a lent buffer.
#![tactic(auto)]

ghost use Rattle.std.specs.Prelude.{◌≡◌, ◌+◌, ◌≤◌, length, take};
ghost use Rattle.std.proofs.lemmas.List.Edits.{sets};
ghost use Rattle.output.specs.Text;
ghost use Rattle.output.specs.Text.{Wrote, text, decimal, next, column, row_of, row, row_room, fitting, holding, numbered};

// The room that a row may take: three numbers of 20 digits, and a byte behind each.
pub const ROW: usize = 63;

// The first line of the output.
#[tactic(auto, unfolding(crate::specs::Text::header))]
pub fn header() -> [u8; 18]
    ensures { result ≡ Text.header }
{
    *b"line\tanswer\tspent\n"
}

// A digit's byte.
fn digit(d: u64) -> u8
    requires { d ≤ 9 }
    ensures { result ≡ 48 + d }
{
    b'0' + d as u8
}

// Puts n's digits, k at most, at a place of out, and answers the place behind them.
fn put_text(out: &mut [u8], at: usize, k: usize, n: u64) -> usize
    requires { at + k ≤ length out.old }
    ensures { Wrote out.old at (text k n) out.new result }
{
    if k == 0 {
        return at;
    }
    if n <= 9 {
        out[at] = digit(n);
        return at + 1;
    }
    let i = put_text(out, at, k - 1, n / 10);
    out[i] = digit(n % 10);
    i + 1
}

// Puts a number.
#[tactic(auto, unfolding(crate::specs::Text::decimal))]
fn put_decimal(out: &mut [u8], at: usize, n: u64) -> usize
    requires { at + 20 ≤ length out.old }
    ensures { Wrote out.old at (decimal n) out.new result }
{
    put_text(out, at, 20, n)
}

// Puts a number and a byte behind it.
fn put_column(out: &mut [u8], at: usize, n: u64, behind: u8) -> usize
    requires { at + 21 ≤ length out.old }
    ensures { Wrote out.old at (column n behind) out.new result }
{
    if n <= 9 {
        out[at] = digit(n);
        out[at + 1] = behind;
        return at + 2;
    }
    let i = put_decimal(out, at, n);
    out[i] = behind;
    i + 1
}

// Puts bytes.
fn put_bytes(out: &mut [u8], at: usize, bytes: &[u8])
    requires { at + length bytes.now ≤ length out.old }
    ensures { out.new ≡ sets out.old at bytes.now }
{
    out[at..at + bytes.len()].copy_from_slice(bytes);
}

// Puts digits. Where they are 4 to 8, as most often, two pieces of four that may overlap are quickest.
fn put_digits(out: &mut [u8], at: usize, digits: &[u8])
    requires { at + length digits.now ≤ length out.old }
    ensures { out.new ≡ sets out.old at digits.now }
{
    let k = digits.len();
    if 4 <= k && k <= 8 {
        put_bytes(out, at, &digits[..4]);
        put_bytes(out, at + (k - 4), &digits[k - 4..]);
        return;
    }
    put_bytes(out, at, digits);
}

// Puts a row that there is room for.
fn put_columns(out: &mut [u8], at: usize, digits: &[u8], answer: u64, spent: u64) -> usize
    requires { (at + row_room ≤ length out.old) × (length digits.now ≤ 20) }
    ensures { Wrote out.old at (row_of digits.now answer spent) out.new result }
{
    put_digits(out, at, digits);
    let end = at + digits.len();
    out[end] = b'\t';
    let next = put_column(out, end + 1, answer, b'\t');
    put_column(out, next, spent, b'\n')
}

// Puts a row at a place of out, numbered by the first k bytes of digits, and answers the place behind it; where out has not
// the room for a row, or k is more than 20 or than there are digits, nothing.
pub fn put_numbered(
    out: &mut [u8],
    at: usize,
    digits: &[u8],
    k: usize,
    answer: u64,
    spent: u64,
) -> usize
    ensures { Wrote out.old at (fitting out.old at (numbered digits.now k answer spent)) out.new result }
{
    if out.len().saturating_sub(at) < ROW || 20 < k || digits.len() < k {
        return at;
    }
    put_columns(out, at, &digits[..k], answer, spent)
}

// Puts n's digits at the start of digits and answers how many they are; where there is not the room for 20, digits is left
// and the answer is 0.
pub fn put_number(digits: &mut [u8], n: u64) -> usize
    ensures { Wrote digits.old 0 (holding digits.old 20 (decimal n)) digits.new result }
{
    if digits.len() < 20 {
        return 0;
    }
    put_decimal(digits, 0, n)
}

// Counts up by one the number whose k digits stand at the start of digits, and answers how many they are then; where there is
// not the room for one digit more, digits is left and the answer is 0.
pub fn count_up(digits: &mut [u8], k: usize) -> usize
    ensures { Wrote digits.old 0 (holding digits.old (k + 1) (next (take k digits.old))) digits.new result }
{
    if digits.len() <= k {
        return 0;
    }
    for i in (0..k).rev() {
        if digits[i] < b'9' {
            digits[i] += 1;
            return k;
        }
        digits[i] = b'0';
    }
    digits[k] = b'0';
    digits[0] = b'1';
    k + 1
}

// Puts a row at a place of out and answers the place behind it; where out has not the room for a row, nothing.
pub fn put_row(out: &mut [u8], at: usize, number: u64, answer: u64, spent: u64) -> usize
    ensures { Wrote out.old at (fitting out.old at (row number answer spent)) out.new result }
{
    let mut digits = [0u8; 21];
    let k = put_number(&mut digits, number);
    put_numbered(out, at, &digits, k, answer, spent)
}
