// The soundness test, and the parts of it that one change of a sound table can break.
#![tactic(auto)]

ghost use Rattle.std.specs.Prelude.{◌≡◌, ◌+◌, ◌*◌, ◌<◌, length, get_or};
ghost use Rattle.bits.specs.Words.{all};
ghost use Rattle.table.specs.Masks.{masks_true};
ghost use Rattle.table.specs.Reading.{state};
ghost use Rattle.table.specs.Sound.{sound};
ghost use Rattle.sound.specs.Answers.{is_sound, sessions_fit, pair_fits, held_within, openings_within, sessions_of, holders_of, sessions_within};
ghost use Rattle.sound.specs.Tests.{role_fits, grant_fits, grants_fit, roles_fit, session_fits};

use table::layout::{ACTIVE, DIRECT, GRANTED, HOLDS, MASKS, OWNER, PERMITTED, WORDS};

// Whether the direct juniors of role r and all their juniors, r not among them, are with r its juniors.
fn role_fits(t: &[u64; WORDS], r: usize) -> bool
    requires { r < 64 }
    ensures { result ≡ role_fits (state t.now) r }
{
    let below = table::covered_roles(t, t[DIRECT + r]);
    !bits::has(below, r) && t[r] == bits::with(below, r)
}

// Whether (x, o) is granted to no role or is a permission.
fn grant_fits(t: &[u64; WORDS], x: usize, o: usize) -> bool
    requires { (x < 8) × (o < 64) }
    ensures { result ≡ grant_fits (state t.now) x o }
{
    t[GRANTED + 64 * x + o] == 0 || bits::has(t[PERMITTED + x], o)
}

// Whether every pair of mode x is granted to no role or is a permission.
fn grants_fit(t: &[u64; WORDS], x: usize) -> bool
    requires { x < 8 }
    ensures { result ≡ grants_fit (state t.now) x }
{
    table::words_empty(t, GRANTED + 64 * x, 64) || (0..64).all(|o| grant_fits(t, x, o))
}

// Whether the word of session s is at most 64, and its active roles are authorised for it.
fn roles_fit(t: &[u64; WORDS], s: usize) -> bool
    requires { s < 32 }
    ensures { result ≡ roles_fit (state t.now) s }
{
    let active = t[ACTIVE + s];
    match t[OWNER + s] {
        0 => active == 0,
        owner @ 1..=64 => bits::subset(active, table::authorised_roles(t, (owner - 1) as usize)),
        _ => false,
    }
}

// Whether all that session s holds open is in the eight masks.
fn holds_within(t: &[u64; WORDS], s: usize, masks: &[u64; 8]) -> bool
    requires { s < 32 }
    ensures { result ≡ held_within (state t.now) s (λ x. get_or masks.now x 0) }
{
    (0..8).all(|x| bits::subset(t[HOLDS + 8 * s + x], masks[x]))
}

// Whether the active roles of session s are authorised for it, and all that it holds open is in the eight masks.
fn session_fits(t: &[u64; WORDS], s: usize, masks: &[u64; 8]) -> bool
    requires { s < 32 }
    ensures { result ≡ session_fits (state t.now) s (λ x. get_or masks.now x 0) }
{
    roles_fit(t, s) && holds_within(t, s, masks)
}

// Whether the active roles of every session are authorised for it, and all that it holds open is in its eight of the masks.
fn all_sessions_fit(t: &[u64; WORDS], masks: &[u64]) -> bool
    requires { length masks.now ≡ 256 }
    ensures { result ≡ all 32 (λ s. session_fits (state t.now) s (λ x. get_or masks.now (8 * s + x) 0)) }
{
    let (masks, _) = masks.as_chunks::<8>();
    (0..32).all(|s| session_fits(t, s, &masks[s]))
}

// Whether the masks are those of what each session may open: nothing, where no session has an active role.
fn masks_true(t: &[u64; WORDS]) -> bool
    ensures { result ≡ masks_true (state t.now) }
{
    if table::words_empty(t, ACTIVE, 32) {
        return table::words_empty(t, MASKS, 256);
    }
    let masks = masks::all_masks(t);
    (0..256).all(|i| t[MASKS + i] == masks[i])
}

// Whether all that makes a table sound holds; left at the first fault.
fn all_fits(t: &[u64; WORDS]) -> bool
    ensures { result ≡ sound (state t.now) }
{
    'test: loop {
        for r in 0..64 {
            if !role_fits(t, r) {
                break 'test false;
            }
        }
        for x in 0..8 {
            if !grants_fit(t, x) {
                break 'test false;
            }
        }
        if !masks_true(t) {
            break 'test false;
        }
        for s in 0..32 {
            if !roles_fit(t, s) {
                break 'test false;
            }
            for x in 0..8 {
                if !bits::subset(t[HOLDS + 8 * s + x], t[MASKS + 8 * s + x]) {
                    break 'test false;
                }
            }
        }
        break 'test separation::is_separated(t);
    }
}

// Whether this is a table and sound.
pub fn is_sound(t: &[u64]) -> bool
    ensures { result ≡ is_sound t.now }
{
    let Some(table) = t.as_array::<WORDS>() else {
        return false;
    };
    all_fits(table)
}

// Whether all that session s holds open is in the eight masks.
pub fn openings_within(t: &[u64], s: usize, masks: &[u64; 8]) -> bool
    ensures { result ≡ openings_within t.now s masks.now }
{
    let Some(table) = t.as_array::<WORDS>() else {
        return false;
    };
    s < 32 && holds_within(table, s, masks)
}

// Whether the active roles of every session of user u are authorised for u.
fn user_fits(t: &[u64; WORDS], u: usize) -> bool
    requires { u < 64 }
    ensures { result ≡ sessions_fit (state t.now) u }
{
    let owner = u as u64 + 1;
    let roles = table::authorised_roles(t, u);
    (0..32)
        .filter(|s| t[OWNER + *s] == owner)
        .all(|s| bits::subset(t[ACTIVE + s], roles))
}

// Whether the active roles of every session of user u are authorised for u.
pub fn sessions_fit(t: &[u64], u: usize) -> bool
    ensures { result ≡ sessions_of t.now u }
{
    let Some(table) = t.as_array::<WORDS>() else {
        return false;
    };
    u < 64 && user_fits(table, u)
}

// Whether (x, o) is effective for every session that holds it open.
fn pair_fits(t: &[u64; WORDS], x: usize, o: usize) -> bool
    requires { (x < 8) × (o < 64) }
    ensures { result ≡ pair_fits (state t.now) x o }
{
    (0..32)
        .filter(|s| bits::has(t[HOLDS + 8 * *s + x], o))
        .all(|s| table::is_effective(t, s, x, o))
}

// Whether (x, o) is effective for every session that holds it open.
pub fn holders_fit(t: &[u64], x: usize, o: usize) -> bool
    ensures { result ≡ holders_of t.now x o }
{
    let Some(table) = t.as_array::<WORDS>() else {
        return false;
    };
    if 7 < x || 63 < o {
        return false;
    }
    pair_fits(table, x, o)
}

// Whether the active roles of every session are authorised for it, and all that it holds open is in its eight of the masks.
pub fn sessions_hold(t: &[u64], masks: &[u64; 256]) -> bool
    ensures { result ≡ sessions_within t.now masks.now }
{
    let Some(table) = t.as_array::<WORDS>() else {
        return false;
    };
    all_sessions_fit(table, masks)
}
