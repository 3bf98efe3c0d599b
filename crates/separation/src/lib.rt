// Separation of duties: the sets, and what they ask of users and sessions.
#![tactic(auto)]

ghost use Rattle.std.specs.Prelude.{◌≡◌, ◌≤◌, length};
ghost use Rattle.bits.specs.Words.{has};
ghost use Rattle.table.specs.Separation.{bad_pair, fewer, static_holds, dynamic_holds, static_sets_hold, dynamic_sets_hold, pairs_good};
ghost use Rattle.table.specs.Reading.{state};
ghost use Rattle.table.specs.Table.{table_length};
ghost use Rattle.separation.specs.Answers.{sets_fit, sets_empty_of, static_fit_of, dynamic_fit_of, pair_holds_of, static_sets_of, separated_of};

use table::layout::{ACTIVE, SETS, WORDS};

// Whether the mask m and the bound b are a pair of error 21.
pub fn is_bad_pair(m: u64, b: u64) -> bool
    ensures { result ≡ bad_pair m b }
{
    if m == 0 {
        return b != 0;
    }
    b < 2 || bits::size(m) < b
}

// Whether the roles include fewer of the mask m than the bound b; an empty mask has none.
fn is_fewer(m: u64, b: u64, roles: u64) -> bool
    ensures { result ≡ fewer m b (has roles) }
{
    m == 0 || bits::size(bits::meet(m, roles)) < b
}

// The first pair of the static sets, and of the dynamic ones.
pub const STATIC: usize = 0;

pub const DYNAMIC: usize = 16;

// Whether the roles include fewer of each of the 16 sets from pair first on than its bound.
fn each_fits(t: &[u64; WORDS], first: usize, roles: u64) -> bool
    requires { first ≤ 16 }
    ensures { result ≡ sets_fit (state t.now) first (has roles) }
{
    (0..16).all(|n| {
        let pair = SETS + 2 * (first + n);
        is_fewer(t[pair], t[pair + 1], roles)
    })
}

// Whether no set is in use.
pub fn sets_empty(t: &[u64]) -> bool
    ensures { result ≡ sets_empty_of t.now }
{
    table::words_empty(t, SETS, 64)
}

// Whether the roles, assigned to a user, and all their juniors fit the static sets; yes at once where none is in use.
pub fn static_fit(t: &[u64], roles: u64) -> bool
    ensures { result ≡ static_fit_of t.now roles }
{
    let Some(table) = t.as_array::<WORDS>() else {
        return false;
    };
    table::words_empty(t, SETS, 32) || each_fits(table, STATIC, table::covered_roles(t, roles))
}

// Whether the roles, active in a session, fit the dynamic sets; yes at once where none is in use.
pub fn dynamic_fit(t: &[u64], roles: u64) -> bool
    ensures { result ≡ dynamic_fit_of t.now roles }
{
    let Some(table) = t.as_array::<WORDS>() else {
        return false;
    };
    table::words_empty(t, SETS + 32, 32) || each_fits(table, DYNAMIC, roles)
}

// Whether the mask m and the bound b, as a static set, hold: of every user.
fn static_holds(t: &[u64; WORDS], m: u64, b: u64) -> bool
    ensures { result ≡ static_holds (state t.now) m b }
{
    (0..64).all(|u| is_fewer(m, b, table::authorised_roles(t, u)))
}

// Whether the mask m and the bound b, as a dynamic set, hold: of every session.
fn dynamic_holds(t: &[u64; WORDS], m: u64, b: u64) -> bool
    ensures { result ≡ dynamic_holds (state t.now) m b }
{
    (0..32).all(|s| is_fewer(m, b, t[ACTIVE + s]))
}

// Whether the mask m and the bound b as pair n hold.
pub fn pair_holds(t: &[u64], n: usize, m: u64, b: u64) -> bool
    ensures { result ≡ pair_holds_of t.now n m b }
{
    let Some(table) = t.as_array::<WORDS>() else {
        return false;
    };
    match n {
        STATIC..DYNAMIC => static_holds(table, m, b),
        DYNAMIC..32 => dynamic_holds(table, m, b),
        _ => false,
    }
}

// Whether no pair is one of error 21.
fn pairs_good(t: &[u64; WORDS]) -> bool
    ensures { result ≡ pairs_good (state t.now) }
{
    (0..32).all(|n| {
        let pair = SETS + 2 * n;
        !is_bad_pair(t[pair], t[pair + 1])
    })
}

// Whether every static set holds: the authorised roles of every user fit them.
fn users_separate(t: &[u64; WORDS]) -> bool
    ensures { result ≡ static_sets_hold (state t.now) }
{
    (0..64).all(|u| each_fits(t, STATIC, table::authorised_roles(t, u)))
}

// Whether every dynamic set holds: the active roles of every session fit them.
fn sessions_separate(t: &[u64; WORDS]) -> bool
    ensures { result ≡ dynamic_sets_hold (state t.now) }
{
    (0..32).all(|s| each_fits(t, DYNAMIC, t[ACTIVE + s]))
}

// Whether every static set holds; yes at once where none is in use.
pub fn static_sets_hold(t: &[u64]) -> bool
    ensures { result ≡ static_sets_of t.now }
{
    let Some(table) = t.as_array::<WORDS>() else {
        return false;
    };
    table::words_empty(t, SETS, 32) || users_separate(table)
}

// Whether every set holds and no pair is one of error 21.
pub fn is_separated(t: &[u64]) -> bool
    ensures { result ≡ separated_of t.now }
{
    let Some(table) = t.as_array::<WORDS>() else {
        return false;
    };
    sets_empty(t) || pairs_good(table) && users_separate(table) && sessions_separate(table)
}
