// The requests of sessions, codes 1 to 6: open, close, start, end, activate and drop.
#![tactic(auto)]

ghost use Rattle.std.specs.Prelude.{◌≡◌, ◌≤◌};
ghost use Rattle.table.specs.Reading.{state};
ghost use Rattle.requests.specs.Request.{ask};
ghost use Rattle.requests.specs.Answer.{number_of};
ghost use Rattle.rbac.specs.Roles.{opens, closes, starts, ends, activates, drops};
ghost use Rattle.rbac.specs.Guard.{allowed_sound, sound_step};
ghost use Rattle.rbac.specs.Served.{Ranged, Served};
ghost use Rattle.sessions.specs.Sessions.{session_step};

use requests::{Answer, Refusal};
use table::layout::{ACTIVE, HOLDS, MASKS, OWNER, WORDS};

// Whether session s may open object o in mode x: its mask has it.
fn may_open(t: &[u64; WORDS], s: usize, o: usize, x: usize) -> bool
    requires { Ranged (opens s o x) }
    ensures { result ≡ allowed_sound (state t.now) (opens s o x) }
{
    bits::has(t[MASKS + 8 * s + x], o)
}

// Session s opens object o in mode x, where it may.
fn open(t: &mut [u64; WORDS], s: usize, o: usize, x: usize) -> bool
    requires { Ranged (opens s o x) }
    ensures { Served t.old t.new result (opens s o x) }
{
    if !may_open(t, s, o, x) {
        return false;
    }
    let at = HOLDS + 8 * s + x;
    t[at] = bits::with(t[at], o);
    true
}

// Session s closes object o in mode x.
fn close(t: &mut [u64; WORDS], s: usize, o: usize, x: usize) -> bool
    requires { Ranged (closes s o x) }
    ensures { Served t.old t.new result (closes s o x) }
{
    let at = HOLDS + 8 * s + x;
    t[at] = bits::without(t[at], o);
    true
}

// The idle session s is given to user u with these roles active, where all of them are authorised for u and fit the dynamic sets.
fn start(t: &mut [u64; WORDS], s: usize, u: usize, roles: u64) -> bool
    requires { Ranged (starts s u roles) }
    ensures { Served t.old t.new result (starts s u roles) }
{
    if t[OWNER + s] != 0 {
        return false;
    }
    if !bits::subset(roles, table::authorised_roles(t, u)) {
        return false;
    }
    if !separation::dynamic_fit(t, roles) {
        return false;
    }
    t[OWNER + s] = u as u64 + 1;
    t[ACTIVE + s] = roles;
    masks::refresh(t, s);
    true
}

// Session s is made idle, without roles and openings, and may open nothing.
fn end(t: &mut [u64; WORDS], s: usize) -> bool
    requires { Ranged (ends s) }
    ensures { Served t.old t.new result (ends s) }
{
    if t[OWNER + s] == 0 {
        return false;
    }
    t[OWNER + s] = 0;
    t[ACTIVE + s] = 0;
    t[HOLDS + 8 * s..HOLDS + 8 * s + 8].fill(0);
    t[MASKS + 8 * s..MASKS + 8 * s + 8].fill(0);
    true
}

// Role r becomes active in session s, where it is authorised and the active roles then fit the dynamic sets.
fn activate(t: &mut [u64; WORDS], s: usize, r: usize) -> bool
    requires { Ranged (activates s r) }
    ensures { Served t.old t.new result (activates s r) }
{
    if !table::may_activate(t, s, r) {
        return false;
    }
    let old = t[ACTIVE + s];
    let more = bits::with(old, r);
    if !separation::dynamic_fit(t, more) {
        return false;
    }
    t[ACTIVE + s] = more;
    if bits::has(old, r) {
        return true;
    }
    masks::refresh(t, s);
    true
}

// Role r is no longer active in session s; put back where something that s holds would not be effective.
fn drop(t: &mut [u64; WORDS], s: usize, r: usize) -> bool
    requires { Ranged (drops s r) }
    ensures { Served t.old t.new result (drops s r) }
{
    let old = t[ACTIVE + s];
    let less = bits::without(old, r);
    t[ACTIVE + s] = less;
    if !bits::has(old, r) {
        return true;
    }
    let masks = table::effective_permissions(t, s);
    if sound::openings_within(t, s, &masks) {
        t[MASKS + 8 * s..MASKS + 8 * s + 8].copy_from_slice(&masks);
        return true;
    }
    t[ACTIVE + s] = old;
    false
}

// The request of a code from 1 to 6 on a table that is known to be sound.
fn perform(t: &mut [u64; WORDS], code: u64, a: u64, b: u64, c: u64) -> Answer
    requires { (1 ≤ code) × (code ≤ 6) }
    ensures answer { number_of result ≡ (sound_step t.old (ask code a b c)).answer }
    ensures table { t.new ≡ (sound_step t.old (ask code a b c)).state }
{
    if !rbac::in_range(code, a, b, c) {
        return Err(Refusal::BadArgument);
    }
    let (a, b, c) = (a as usize, b as usize, c as usize);
    Ok(match code {
        1 => open(t, a, b, c),
        2 => close(t, a, b, c),
        3 => start(t, a, b, c as u64),
        4 => end(t, a),
        5 => activate(t, a, b),
        _ => drop(t, a, b),
    })
}

// A request of a session on a table that is known to be sound; another code is refused.
pub fn serve(t: &mut [u64], code: u64, a: u64, b: u64, c: u64) -> Answer
    ensures answer { number_of result ≡ (session_step t.old (ask code a b c)).answer }
    ensures table { t.new ≡ (session_step t.old (ask code a b c)).state }
{
    match code {
        1..=6 => perform(t.as_mut_array().ok_or(Refusal::WrongLength)?, code, a, b, c),
        _ => Err(Refusal::BadCode),
    }
}

// What an opening would be answered on a table that is known to be sound.
pub fn opening(t: &[u64], s: u64, o: u64, x: u64) -> Answer
    ensures { number_of result ≡ (sound_step t.now (ask 1 s o x)).answer }
{
    let table = t.as_array::<WORDS>().ok_or(Refusal::WrongLength)?;
    if !rbac::in_range(1, s, o, x) {
        return Err(Refusal::BadArgument);
    }
    Ok(may_open(table, s as usize, o as usize, x as usize))
}
