// The reflexive, transitive closure of the direct juniors of 64 roles, and the test for a cycle.
#![tactic(auto)]

ghost use Rattle.std.specs.Prelude.{◌≡◌, ◌<◌, get_or, eqb};
ghost use Rattle.bits.specs.Words.{◌implies◌, when◌then◌else◌, has};
ghost use Rattle.bits.specs.Sets.{each, join};
ghost use Rattle.closure.specs.Closure.{via, closure, acyclic};

// The row of a role that gets what is below k where it has k.
fn passed_row(row: u64, below: u64, k: usize) -> u64
    ensures { result ≡ when◌then◌else◌ (has row k) (join row below) row }
{
    if bits::has(row, k) {
        bits::join(row, below)
    } else {
        row
    }
}

// Every role that has k gets what k has; nothing changes where that is k alone.
fn pass_through(rows: &mut [u64; 64], k: usize)
    requires { k < 64 }
    ensures { rows.new ≡ via k rows.old }
{
    let below = rows[k];
    if bits::without(below, k) == 0 {
        return;
    }
    for row in rows.iter_mut() {
        *row = passed_row(*row, below, k);
    }
}

// The reflexive, transitive closure of 64 words of direct juniors.
pub fn closure_of(direct: &[u64; 64]) -> [u64; 64]
    ensures { result ≡ closure direct.now }
{
    let mut rows = std::array::from_fn(|r| bits::with(direct[r], r));
    for k in 0..64 {
        pass_through(&mut rows, k);
    }
    rows
}

// Whether no other role that r has has r.
fn is_apart(rows: &[u64; 64], r: usize) -> bool
    requires { r < 64 }
    ensures { result ≡ each (get_or rows.now r 0) (λ q. has (get_or rows.now q 0) r implies eqb r q) }
{
    bits::Members::of(rows[r]).all(|q| q == r || !bits::has(rows[q], r))
}

// Whether no two different roles have each other.
pub fn is_acyclic(rows: &[u64; 64]) -> bool
    ensures { result ≡ acyclic rows.now }
{
    (0..64).all(|r| is_apart(rows, r))
}
