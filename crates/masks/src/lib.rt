// The masks of what each session may open, worked out anew: of all sessions, for which the objects of each role are gathered and
// those of each session's roles joined; of one session; and one pair of all.
#![tactic(auto)]

ghost use Rattle.std.specs.Prelude.{◌≡◌, ◌+◌, ◌<◌};
ghost use Rattle.table.specs.Masks;
ghost use Rattle.table.specs.Reading.{state};
ghost use Rattle.masks.specs.Answers.{all_masks, session_refreshed, pair_refreshed};
ghost use Rattle.masks.specs.Gathered.{noted, giving_roles, gathered, with_row, joined_rows, masks_below, Ready};

use table::layout::{ACTIVE, GRANTED, MASKS, PERMITTED, WORDS};

// Notes the object o at mode x of each of the roles.
fn note(objects: &mut [u64; 512], roles: u64, x: usize, o: usize)
    requires { x < 8 }
    ensures { objects.new ≡ noted objects.old roles x o }
{
    for role in bits::Members::of(roles) {
        objects[8 * role + x] = bits::with(objects[8 * role + x], o);
    }
}

// Notes the objects of mode x at the roles that are granted them.
fn gather(t: &[u64; WORDS], objects: &mut [u64; 512], x: usize)
    requires { (x < 8) × (objects.old ≡ gathered (state t.now) x) }
    ensures { objects.new ≡ gathered (state t.now) (x + 1) }
{
    for o in bits::Members::of(t[PERMITTED + x]) {
        note(objects, t[GRANTED + 64 * x + o], x, o);
    }
}

// The words of the modes joined with the objects of role q.
fn with_row(words: &[u64; 8], objects: &[u64; 512], q: usize) -> [u64; 8]
    requires { q < 64 }
    ensures { result ≡ with_row words.now objects.now q }
{
    std::array::from_fn(|x| bits::join(words[x], objects[8 * q + x]))
}

// The objects of the roles together, of each mode.
fn joined_rows(objects: &[u64; 512], roles: u64) -> [u64; 8]
    ensures { result ≡ joined_rows objects.now roles }
{
    let mut words = [0; 8];
    for role in bits::Members::of(roles) {
        words = with_row(&words, objects, role);
    }
    words
}

// Writes the masks of session s.
fn write_session(t: &[u64; WORDS], objects: &[u64; 512], s: usize, masks: &mut [u64; 256])
    requires { (s < 32) × Ready (state t.now) objects.now masks.old s }
    ensures { masks.new ≡ masks_below (state t.now) (s + 1) }
{
    let active = t[ACTIVE + s];
    if active == 0 {
        return;
    }
    let words = joined_rows(objects, table::covered_roles(t, active));
    masks[8 * s..8 * s + 8].copy_from_slice(&words);
}

// The masks of all sessions, in the order of the table; none where this is no table.
pub fn all_masks(t: &[u64]) -> [u64; 256]
    ensures { result ≡ all_masks t.now }
{
    let mut masks = [0; 256];
    let Some(table) = t.as_array::<WORDS>() else {
        return masks;
    };
    let mut objects = [0; 512];
    for x in 0..8 {
        gather(table, &mut objects, x);
    }
    for s in 0..32 {
        write_session(table, &objects, s, &mut masks);
    }
    masks
}

// The masks of session s are worked out anew.
pub fn refresh(t: &mut [u64], s: usize)
    ensures { t.new ≡ session_refreshed t.old s }
{
    if t.len() != WORDS || 31 < s {
        return;
    }
    let masks = table::effective_permissions(t, s);
    table::overlay(t, MASKS + 8 * s, &masks);
}

// The word with the member i where b, else without it.
fn put(w: u64, i: usize, b: bool) -> u64
    ensures { result ≡ Masks.put w i b }
{
    if b {
        bits::with(w, i)
    } else {
        bits::without(w, i)
    }
}

// The roles that give the pair (x, o): those that are granted it, and their seniors.
fn giving(t: &[u64; WORDS], x: usize, o: usize) -> u64
    requires { (x < 8) × (o < 64) }
    ensures { result ≡ giving_roles (state t.now) x o }
{
    if bits::has(t[PERMITTED + x], o) {
        table::senior_roles(t, t[GRANTED + 64 * x + o])
    } else {
        0
    }
}

// The pair (x, o) is worked out anew in the masks of every session.
pub fn refresh_pair(t: &mut [u64], x: usize, o: usize)
    ensures { t.new ≡ pair_refreshed t.old x o }
{
    if 7 < x || 63 < o {
        return;
    }
    let Some(table) = t.as_mut_array::<WORDS>() else {
        return;
    };
    let roles = giving(table, x, o);
    for s in 0..32 {
        let at = MASKS + 8 * s + x;
        table[at] = put(table[at], o, bits::overlap(table[ACTIVE + s], roles));
    }
}
