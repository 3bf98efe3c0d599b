// The requests of administration, codes 7 to 14: who is assigned what, what is granted, separation sets and seniority.
#![tactic(auto)]

ghost use Rattle.std.specs.Prelude.{◌≡◌, ◌≤◌, ◌<◌, not};
ghost use Rattle.table.specs.Authority.{permission};
ghost use Rattle.table.specs.Reading.{state};
ghost use Rattle.table.specs.Separation.{bad_pair};
ghost use Rattle.requests.specs.Request.{ask};
ghost use Rattle.requests.specs.Answer.{number_of};
ghost use Rattle.rbac.specs.Roles.{assigns, deassigns, grants, revokes, separates};
ghost use Rattle.rbac.specs.Guard.{sound_step};
ghost use Rattle.rbac.specs.Served.{Ranged, Served, RefusedFor};
ghost use Rattle.administration.specs.Administration.{administration_step};

use requests::{Answer, Refusal};
use table::layout::{ASSIGNED, GRANTED, PERMITTED, SETS, WORDS};

// Role r is assigned to user u, where the authorised roles then fit the static sets.
fn assign(t: &mut [u64; WORDS], u: usize, r: usize) -> bool
    requires { Ranged (assigns u r) }
    ensures { Served t.old t.new result (assigns u r) }
{
    let more = bits::with(t[ASSIGNED + u], r);
    if !separation::static_fit(t, more) {
        return false;
    }
    t[ASSIGNED + u] = more;
    true
}

// Role r is no longer assigned to user u; put back where a role active in a session of u would not be authorised.
fn deassign(t: &mut [u64; WORDS], u: usize, r: usize) -> bool
    requires { Ranged (deassigns u r) }
    ensures { Served t.old t.new result (deassigns u r) }
{
    let old = t[ASSIGNED + u];
    let less = bits::without(old, r);
    t[ASSIGNED + u] = less;
    if !bits::has(old, r) {
        return true;
    }
    if sound::sessions_fit(t, u) {
        return true;
    }
    t[ASSIGNED + u] = old;
    false
}

// Role r is granted (x, o), a permission.
fn grant(t: &mut [u64; WORDS], r: usize, x: usize, o: usize) -> bool
    requires { Ranged (grants r x o) }
    ensures { Served t.old t.new result (grants r x o) }
{
    let at = GRANTED + 64 * x + o;
    let old = t[at];
    t[at] = bits::with(old, r);
    if bits::has(old, r) {
        return true;
    }
    masks::refresh_pair(t, x, o);
    true
}

// Role r is no longer granted (x, o), a permission; put back where it would not be effective for a session that holds it.
fn revoke(t: &mut [u64; WORDS], r: usize, x: usize, o: usize) -> bool
    requires { Ranged (revokes r x o) }
    ensures { Served t.old t.new result (revokes r x o) }
{
    let at = GRANTED + 64 * x + o;
    let old = t[at];
    let less = bits::without(old, r);
    t[at] = less;
    if !bits::has(old, r) {
        return true;
    }
    if sound::holders_fit(t, x, o) {
        masks::refresh_pair(t, x, o);
        return true;
    }
    t[at] = old;
    false
}

// Pair n is replaced, where it holds: a static set of every user, a dynamic one of every session.
fn separate(t: &mut [u64; WORDS], n: usize, roles: u64, bound: u64) -> bool
    requires { Ranged (separates n roles bound) }
    ensures { Served t.old t.new result (separates n roles bound) }
{
    if !separation::pair_holds(t, n, roles, bound) {
        return false;
    }
    t[SETS + 2 * n] = roles;
    t[SETS + (2 * n + 1)] = bound;
    true
}

// Refuses a pair of error 21.
fn check_pair(roles: u64, bound: u64) -> Result<(), Refusal>
    ensures { RefusedFor result Refusal.BadPair (bad_pair roles bound) }
{
    if separation::is_bad_pair(roles, bound) {
        return Err(Refusal::BadPair);
    }
    Ok(())
}

// Refuses (x, o) where it is not a permission.
fn check_permission(t: &[u64; WORDS], x: usize, o: usize) -> Result<(), Refusal>
    requires { x < 8 }
    ensures { RefusedFor result Refusal.NoPermission (not (permission (state t.now) x o)) }
{
    if !bits::has(t[PERMITTED + x], o) {
        return Err(Refusal::NoPermission);
    }
    Ok(())
}

// The request of a code from 7 to 14 on a table that is known to be sound. Static set n is pair n, and the dynamic ones come after
// the static ones.
fn perform(t: &mut [u64; WORDS], code: u64, a: u64, b: u64, c: u64) -> Answer
    requires { (7 ≤ code) × (code ≤ 14) }
    ensures answer { number_of result ≡ (sound_step t.old (ask code a b c)).answer }
    ensures table { t.new ≡ (sound_step t.old (ask code a b c)).state }
{
    if !rbac::in_range(code, a, b, c) {
        return Err(Refusal::BadArgument);
    }
    let (a, b, c) = (a as usize, b as usize, c as usize);
    Ok(match code {
        7 => assign(t, a, b),
        8 => deassign(t, a, b),
        9 => {
            check_permission(t, b, c)?;
            grant(t, a, b, c)
        }
        10 => {
            check_permission(t, b, c)?;
            revoke(t, a, b, c)
        }
        11 => {
            check_pair(b as u64, c as u64)?;
            separate(t, a, b as u64, c as u64)
        }
        12 => {
            check_pair(b as u64, c as u64)?;
            separate(t, separation::DYNAMIC + a, b as u64, c as u64)
        }
        13 => links::link(t, a, b),
        _ => links::unlink(t, a, b),
    })
}

// A request of administration on a table that is known to be sound; another code is refused.
pub fn serve(t: &mut [u64], code: u64, a: u64, b: u64, c: u64) -> Answer
    ensures answer { number_of result ≡ (administration_step t.old (ask code a b c)).answer }
    ensures table { t.new ≡ (administration_step t.old (ask code a b c)).state }
{
    match code {
        7..=14 => perform(t.as_mut_array().ok_or(Refusal::WrongLength)?, code, a, b, c),
        _ => Err(Refusal::BadCode),
    }
}
