// The table, and the RBAC96 state that it shows.
#![tactic(auto)]

pub mod layout;

ghost use Rattle.std.specs.Prelude.{◌≡◌, ◌+◌, ◌≤◌, ◌<◌, length};
ghost use Rattle.bits.specs.Words.{◌and◌, has, pack};
ghost use Rattle.bits.specs.Sets.{some, overlap};
ghost use Rattle.table.specs.Authority.{permission, covers};
ghost use Rattle.table.specs.Reading.{word, state};
ghost use Rattle.table.specs.Table.{table_length};
ghost use Rattle.table.specs.Answers;
ghost use Rattle.table.specs.Answers.{covered_roles, senior_roles, authorised_roles, effective_permissions, activatable, openable, words_empty, cleared_from};

use layout::{ACTIVE, ASSIGNED, GRANTED, OWNER, PERMITTED, WORDS};

// The roles and all their juniors.
fn juniors_of(t: &[u64; WORDS], roles: u64) -> u64
    ensures { result ≡ pack 64 (covers (state t.now) roles) }
{
    let mut all = 0;
    for role in bits::Members::of(roles) {
        all = bits::join(all, t[role]);
    }
    all
}

// The roles and all their juniors; none where this is no table.
pub fn covered_roles(t: &[u64], roles: u64) -> u64
    ensures { result ≡ covered_roles t.now roles }
{
    let Some(table) = t.as_array::<WORDS>() else {
        return 0;
    };
    juniors_of(table, roles)
}

// The authorised roles of user u; none where there is no such user.
pub fn authorised_roles(t: &[u64], u: usize) -> u64
    ensures { result ≡ authorised_roles t.now u }
{
    let Some(table) = t.as_array::<WORDS>() else {
        return 0;
    };
    if 63 < u {
        return 0;
    }
    juniors_of(table, table[ASSIGNED + u])
}

// The places of those of the 64 words from the place at on that have a member of the set, from the last word down.
fn meeting(t: &[u64; WORDS], at: usize, set: u64) -> u64
    requires { at + 64 ≤ table_length }
    ensures { result ≡ pack 64 (λ i. overlap (word t.now (at + i)) set) }
{
    let mut found = 0;
    for i in (0..64).rev() {
        found = 2 * found + u64::from(bits::overlap(t[at + i], set));
    }
    found
}

// The roles that are senior to one of the roles, or are one; none where this is no table.
pub fn senior_roles(t: &[u64], roles: u64) -> u64
    ensures { result ≡ senior_roles t.now roles }
{
    let Some(table) = t.as_array::<WORDS>() else {
        return 0;
    };
    meeting(table, 0, roles)
}

// Those of the objects whose permission of mode x is granted to one of the roles.
fn granted_among(t: &[u64; WORDS], objects: u64, roles: u64, x: usize) -> u64
    requires { x < 8 }
    ensures { result ≡ pack 64 (λ o. has objects o and overlap ((state t.now).granted x o) roles) }
{
    let mut found = 0;
    for o in bits::Members::of(objects) {
        if bits::overlap(t[GRANTED + 64 * x + o], roles) {
            found = bits::with(found, o);
        }
    }
    found
}

// The permissions of mode x that are granted to one of the roles. (Where all objects are permissions, as in a label table, going
// straight through them takes half the time of the walk over members.)
fn granted_objects(t: &[u64; WORDS], roles: u64, x: usize) -> u64
    requires { x < 8 }
    ensures { result ≡ pack 64 (λ o. permission (state t.now) x o and overlap ((state t.now).granted x o) roles) }
{
    if roles == 0 {
        return 0;
    }
    let permitted = t[PERMITTED + x];
    if permitted == u64::MAX {
        return meeting(t, GRANTED + 64 * x, roles);
    }
    granted_among(t, permitted, roles, x)
}

// The effective permissions of session s, the objects of each mode; none where there is no such session.
pub fn effective_permissions(t: &[u64], s: usize) -> [u64; 8]
    ensures { result ≡ effective_permissions t.now s }
{
    let Some(table) = t.as_array::<WORDS>() else {
        return [0; 8];
    };
    if 31 < s {
        return [0; 8];
    }
    let roles = juniors_of(table, table[ACTIVE + s]);
    std::array::from_fn(|x| granted_objects(table, roles, x))
}

// Whether one of the granted roles is one of the roles or a junior of one.
fn is_covered(t: &[u64; WORDS], roles: u64, granted: u64) -> bool
    ensures { result ≡ some roles (λ r. overlap granted ((state t.now).juniors r)) }
{
    bits::Members::of(roles).any(|role| bits::overlap(granted, t[role]))
}

// Whether (x, o) is effective for session s.
pub fn is_effective(t: &[u64], s: usize, x: usize, o: usize) -> bool
    ensures { result ≡ openable t.now s x o }
{
    let Some(table) = t.as_array::<WORDS>() else {
        return false;
    };
    if 31 < s || 7 < x || 63 < o {
        return false;
    }
    bits::has(table[PERMITTED + x], o)
        && is_covered(table, table[ACTIVE + s], table[GRANTED + 64 * x + o])
}

// Whether role r is authorised for the user of session s.
pub fn may_activate(t: &[u64], s: usize, r: usize) -> bool
    ensures { result ≡ activatable t.now s r }
{
    let Some(table) = t.as_array::<WORDS>() else {
        return false;
    };
    if 31 < s || 63 < r {
        return false;
    }
    let owner = table[OWNER + s];
    if owner == 0 || 64 < owner {
        return false;
    }
    let user = owner as usize - 1;
    bits::has(juniors_of(table, table[ASSIGNED + user]), r)
}

// Whether the n words of the table from the place at on are 0; no, where it has no such words.
pub fn words_empty(t: &[u64], at: usize, n: usize) -> bool
    ensures { result ≡ words_empty t.now at n }
{
    if t.len() != WORDS {
        return false;
    }
    if WORDS < at {
        return false;
    }
    if WORDS - at < n {
        return false;
    }
    let mut words = 0;
    for i in 0..n {
        words = bits::join(words, t[at + i]);
    }
    words == 0
}

// Writes the words into the list from the place at on, as far as it goes.
pub fn overlay(t: &mut [u64], at: usize, words: &[u64])
    ensures { t.new ≡ Answers.overlay t.old at words.now }
{
    if at < t.len() {
        let n = words.len().min(t.len() - at);
        t[at..at + n].copy_from_slice(&words[..n]);
    }
}

// Writes 0 into the list from the place at on.
pub fn clear_from(t: &mut [u64], at: usize)
    ensures { t.new ≡ cleared_from t.old at }
{
    if at < t.len() {
        t[at..].fill(0);
    }
}
