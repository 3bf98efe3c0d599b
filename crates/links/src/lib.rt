// Change of seniority: a link from a role to a direct junior made, or taken away, on a lent table.
#![tactic(auto)]

ghost use Rattle.std.specs.Prelude.{◌≡◌, ◌+◌, ◌≤◌, ◌<◌, get_or};
ghost use Rattle.bits.specs.Words.{upd, tabulate};
ghost use Rattle.table.specs.Changes.{set_seniority, with_direct};
ghost use Rattle.table.specs.Reading.{word, state};
ghost use Rattle.table.specs.Table.{table_length, encode};
ghost use Rattle.links.specs.Links.{may_link, after_link, may_unlink, after_unlink};

use table::layout::{DIRECT, MASKS, WORDS};

// The 64 words from the place at on.
fn words_from(t: &[u64; WORDS], at: usize) -> [u64; 64]
    requires { at + 64 ≤ table_length }
    ensures { result ≡ tabulate 64 (λ i. word t.now (at + i)) }
{
    std::array::from_fn(|i| t[at + i])
}

// Writes the direct juniors of role r, and the juniors of all roles.
fn write_seniority(t: &mut [u64; WORDS], r: usize, direct: u64, rows: &[u64; 64])
    requires { r < 64 }
    ensures { t.new ≡ encode (set_seniority (state t.old) (λ p. get_or rows.now p 0) (upd (state t.old).direct r direct)) }
{
    t[DIRECT + r] = direct;
    table::overlay(t, 0, rows);
}

// Role r gets these direct juniors, and all roles the closure.
fn relink(t: &mut [u64; WORDS], r: usize, direct: u64)
    requires { r < 64 }
    ensures { t.new ≡ encode (with_direct (state t.old) r direct) }
{
    let mut given = words_from(t, DIRECT);
    given[r] = direct;
    let rows = closure::closure_of(&given);
    write_seniority(t, r, direct, &rows);
}

// Role r is put above q; put back where a static set would not hold.
pub fn link(t: &mut [u64], r: usize, q: usize) -> bool
    ensures answer { result ≡ may_link t.old r q }
    ensures table { t.new ≡ after_link t.old r q }
{
    if 63 < r || 63 < q {
        return false;
    }
    let Some(table) = t.as_mut_array::<WORDS>() else {
        return false;
    };
    if r == q {
        return false;
    }
    if bits::has(table[q], r) {
        return false;
    }
    let rows = words_from(table, 0);
    let old = table[DIRECT + r];
    relink(table, r, bits::with(old, q));
    if separation::static_sets_hold(table) {
        let masks = masks::all_masks(table);
        table::overlay(table, MASKS, &masks);
        return true;
    }
    write_seniority(table, r, old, &rows);
    false
}

// Role r is no longer directly above q; put back where an active role would not be authorised or an opening not effective.
pub fn unlink(t: &mut [u64], r: usize, q: usize) -> bool
    ensures answer { result ≡ may_unlink t.old r q }
    ensures table { t.new ≡ after_unlink t.old r q }
{
    if 63 < r || 63 < q {
        return false;
    }
    let Some(table) = t.as_mut_array::<WORDS>() else {
        return false;
    };
    let old = table[DIRECT + r];
    if !bits::has(old, q) {
        return false;
    }
    let rows = words_from(table, 0);
    relink(table, r, bits::without(old, q));
    let masks = masks::all_masks(table);
    if sound::sessions_hold(table, &masks) {
        table::overlay(table, MASKS, &masks);
        return true;
    }
    write_seniority(table, r, old, &rows);
    false
}
