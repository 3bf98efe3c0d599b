// The image of a machine state: the test for it, and the label set-up.
#![tactic(auto)]

ghost use Rattle.std.specs.Prelude.{◌≡◌, ◌+◌, ◌≤◌, length, get_or};
ghost use Rattle.bits.specs.Words.{◌with◌, pack, tabulate};
ghost use Rattle.table.specs.Reading.{state};
ghost use Rattle.table.specs.Table.{table_length};
ghost use Rattle.requests.specs.Answer.{number_of};
ghost use Rattle.machine.specs.Label.{stands};
ghost use Rattle.image.specs.Image.{image, above, cleared_roles, seat_roles};
ghost use Rattle.image.specs.Test.{seat_of, links_fit, permissions_fit, users_fit, objects_fit, levels_fit, IsLabel, shows_image};
ghost use Rattle.machine.specs.Machine.{begin};
ghost use Rattle.image.specs.SetUp.{are_labels, label_set_up};

use machine::{Label, Standing};
use requests::{Answer, Refusal};
use table::layout::{ACTIVE, ASSIGNED, DIRECT, GRANTED, OWNER, PERMITTED, WORDS};

// The direct juniors of each role: of those that `junior_roles` works out all but the role. Written out for the test, which every
// label request pays for.
const LINKS: [u64; 64] = [
    0,
    0x1,
    0x1,
    0x7,
    0x1,
    0x13,
    0x15,
    0x7f,
    0x1,
    0x103,
    0x105,
    0x70f,
    0x111,
    0x1333,
    0x1555,
    0x7fff,
    0x101,
    0x10303,
    0x10505,
    0x70f0f,
    0x11111,
    0x133333,
    0x155555,
    0x7fffff,
    0x10101,
    0x1030303,
    0x1050505,
    0x70f0f0f,
    0x1111111,
    0x13333333,
    0x15555555,
    0x7fffffff,
    0xfffffffe00000000,
    0xaaaaaaa800000000,
    0xccccccc800000000,
    0x8888888000000000,
    0xf0f0f0e000000000,
    0xa0a0a08000000000,
    0xc0c0c08000000000,
    0x8080800000000000,
    0xfffffe0000000000,
    0xaaaaa80000000000,
    0xccccc80000000000,
    0x8888800000000000,
    0xf0f0e00000000000,
    0xa0a0800000000000,
    0xc0c0800000000000,
    0x8080000000000000,
    0xfffe000000000000,
    0xaaa8000000000000,
    0xccc8000000000000,
    0x8880000000000000,
    0xf0e0000000000000,
    0xa080000000000000,
    0xc080000000000000,
    0x8000000000000000,
    0xfe00000000000000,
    0xa800000000000000,
    0xc800000000000000,
    0x8000000000000000,
    0xe000000000000000,
    0x8000000000000000,
    0x8000000000000000,
    0,
];

// The objects permitted in each mode: all to be read and to be written.
const PERMITTED_OBJECTS: [u64; 8] = [0xffffffffffffffff, 0xffffffffffffffff, 0, 0, 0, 0, 0, 0];

// Whether the direct juniors of the roles are those of an image.
fn links_fit(t: &[u64; WORDS]) -> bool
    ensures { result ≡ links_fit (state t.now) }
{
    t[DIRECT..DIRECT + 64] == LINKS[..]
}

// Whether the permissions are those of modes 0 and 1.
fn permissions_fit(t: &[u64; WORDS]) -> bool
    ensures { result ≡ permissions_fit (state t.now) }
{
    t[PERMITTED..PERMITTED + 8] == PERMITTED_OBJECTS[..]
}

// The label of the lowest role.
pub fn label_of(roles: u64) -> usize
    ensures { IsLabel roles result }
{
    bits::lowest(roles) % 32
}

// The roles of a user with clearance c.
fn cleared_roles(c: usize) -> u64
    ensures { result ≡ cleared_roles c }
{
    bits::with(bits::with(0, c), 32)
}

// Whether every user has exactly a clearance role and role 32.
fn users_fit(t: &[u64; WORDS]) -> bool
    ensures { result ≡ users_fit (state t.now) }
{
    (0..64).all(|u| {
        let roles = t[ASSIGNED + u];
        roles == cleared_roles(label_of(roles))
    })
}

// Whether every object is granted to the read role and to the write role of one label alone.
fn objects_fit(t: &[u64; WORDS]) -> bool
    ensures { result ≡ objects_fit (state t.now) }
{
    (0..64).all(|o| {
        let readers = t[GRANTED + o];
        let label = label_of(readers);
        readers == bits::with(0, label) && t[GRANTED + 64 + o] == bits::with(0, 32 + label)
    })
}

// The roles of the session that a word of its user and its active roles show.
fn seat_roles(owner: u64, roles: u64) -> u64
    ensures { result ≡ seat_roles (seat_of owner roles) }
{
    if owner == 0 {
        return 0;
    }
    let y = label_of(roles);
    bits::with(bits::with(0, y), 32 + y)
}

// Whether every session has exactly the two roles of its level, and an idle one none.
fn levels_fit(t: &[u64; WORDS]) -> bool
    ensures { result ≡ levels_fit (state t.now) }
{
    (0..32).all(|s| {
        let roles = t[ACTIVE + s];
        roles == seat_roles(t[OWNER + s], roles)
    })
}

// Whether a sound table is the image of a machine state; no for a list that is no table.
pub fn is_image(t: &[u64]) -> bool
    ensures { result ≡ shows_image t.now }
{
    let Some(table) = t.as_array::<WORDS>() else {
        return false;
    };
    links_fit(table)
        && permissions_fit(table)
        && users_fit(table)
        && objects_fit(table)
        && levels_fit(table)
        && separation::sets_empty(table)
}

// How the labels of two numbers stand.
fn standing_of(a: usize, b: usize) -> Standing
    ensures { result ≡ stands a b }
{
    let first = Label { number: a as u64 };
    first.compare(Label { number: b as u64 })
}

// Whether role r is senior to role q or is q, by how their labels stand: read roles like the labels, write roles the other way
// round, and a read role and a write role never.
fn is_above(r: usize, q: usize) -> bool
    ensures { result ≡ above r q }
{
    if r < 32 {
        q < 32 && standing_of(r, q).equal_or_above()
    } else {
        32 <= q && standing_of(q - 32, r - 32).equal_or_above()
    }
}

// The juniors of role r, and the role.
fn junior_roles(r: usize) -> u64
    ensures { result ≡ pack 64 (above r) }
{
    let mut found: u64 = 0;
    for q in 0..64 {
        if is_above(r, q) {
            found = bits::with(found, q);
        }
    }
    found
}

// The juniors of each of the 64 roles, and the role.
fn seniority_words() -> [u64; 64]
    ensures { result ≡ tabulate 64 (λ r. pack 64 (above r)) }
{
    std::array::from_fn(junior_roles)
}

// Whether the values are labels.
fn are_labels(values: &[u8; 64]) -> bool
    ensures { result ≡ are_labels values.now }
{
    values.iter().all(|value| *value < 32)
}

// The roles of 64 users by their clearances.
fn assigned_words(clearances: &[u8; 64]) -> [u64; 64]
    ensures { result ≡ tabulate 64 (λ u. cleared_roles (get_or clearances.now u 0)) }
{
    std::array::from_fn(|u| cleared_roles(clearances[u] as usize))
}

// For each of 64 labels the role that stands as far behind the first as the label is large.
fn granted_words(labels: &[u8; 64], first: usize) -> [u64; 64]
    requires { first ≤ 32 }
    ensures { result ≡ tabulate 64 (λ o. 0 with (first + get_or labels.now o 0)) }
{
    std::array::from_fn(|o| bits::with(0, first + labels[o] as usize))
}

// Writes the image of the machine with these clearances and labels, all sessions idle.
fn write_image(t: &mut [u64; WORDS], clearances: &[u8; 64], labels: &[u8; 64])
    ensures { t.new ≡ image (begin clearances.now labels.now) }
{
    table::overlay(t, 0, &seniority_words());
    table::overlay(t, PERMITTED, &PERMITTED_OBJECTS);
    table::overlay(t, ASSIGNED, &assigned_words(clearances));
    table::overlay(t, GRANTED, &granted_words(labels, 0));
    table::overlay(t, GRANTED + 64, &granted_words(labels, 32));
    table::clear_from(t, GRANTED + 128);
    table::overlay(t, DIRECT, &LINKS);
}

// The label set-up: 64 clearances and 64 object labels, and all sessions idle.
pub fn label_setup(t: &mut [u64], clearances: &[u8], labels: &[u8]) -> Answer
    ensures answer { number_of result ≡ (label_set_up t.old clearances.now labels.now).answer }
    ensures table { t.new ≡ (label_set_up t.old clearances.now labels.now).state }
{
    let table = t.as_mut_array::<WORDS>().ok_or(Refusal::WrongLength)?;
    let clearances = clearances.as_array::<64>().ok_or(Refusal::BadListLength)?;
    let labels = labels.as_array::<64>().ok_or(Refusal::BadListLength)?;
    if !(are_labels(clearances) && are_labels(labels)) {
        return Err(Refusal::BadValue);
    }
    write_image(table, clearances, labels);
    Ok(true)
}
