// The guard for programs in C and Rust: each function under its plain name, with the same equations.
#![tactic(auto)]

ghost use Rattle.std.specs.Prelude.{◌≡◌, ◌<◌, eqb, ltb, length};
ghost use Rattle.bits.specs.Words.{◌and◌, tabulate};
ghost use Rattle.table.specs.Reading.{state};
ghost use Rattle.table.specs.Table.{table_length};
ghost use Rattle.requests.specs.Request.{ask};
ghost use Rattle.rbac.specs.Guard.{role_step};
ghost use Rattle.requests.specs.Answer.{number_of};
ghost use Rattle.setup.specs.SetUp.{role_set_up};
ghost use Rattle.alike.specs.Likeness.{likeness};
ghost use Rattle.image.specs.SetUp.{label_set_up};
ghost use Rattle.labels.specs.Guard.{label_step};
ghost use Rattle.tally.specs.Tally.{open_tallied};
ghost use Rattle.tally.specs.Statement.{statement_of};
ghost use Rattle.sheetguard.specs.Stating.{charges_left, total_left};
ghost use Rattle.sheetguard.specs.Reading.{readable, read_permissions, read_roles};
ghost use Rattle.sheetguard.specs.Comparing.{compare_labels};

use machine::Label;
use requests::{Answer, Refusal};
use table::layout::{MASKS, WORDS};
use tally::Tally;

// The role set-up: 64 words of direct juniors, 8 of permissions.
#[unsafe(no_mangle)]
pub extern "C" fn sheetguard_role_setup(
    table: &mut [u64],
    juniors: &[u64],
    permissions: &[u64],
) -> u64
    ensures answer { result ≡ (role_set_up table.old juniors.now permissions.now).answer }
    ensures table { table.new ≡ (role_set_up table.old juniors.now permissions.now).state }
{
    requests::number(setup::role_setup(table, juniors, permissions))
}

// A role request.
#[unsafe(no_mangle)]
pub extern "C" fn sheetguard_role_request(
    table: &mut [u64],
    code: u64,
    a: u64,
    b: u64,
    c: u64,
) -> u64
    ensures answer { result ≡ (role_step table.old (ask code a b c)).answer }
    ensures table { table.new ≡ (role_step table.old (ask code a b c)).state }
{
    requests::number(roles::request(table, code, a, b, c))
}

// Likeness of two tables.
#[unsafe(no_mangle)]
pub extern "C" fn sheetguard_alike(first: &[u64], second: &[u64]) -> u64
    ensures { result ≡ likeness first.now second.now }
{
    requests::number(alike::alike(first, second))
}

// The label set-up: 64 clearances and 64 object labels.
#[unsafe(no_mangle)]
pub extern "C" fn sheetguard_label_setup(table: &mut [u64], clearances: &[u8], labels: &[u8]) -> u64
    ensures answer { result ≡ (label_set_up table.old clearances.now labels.now).answer }
    ensures table { table.new ≡ (label_set_up table.old clearances.now labels.now).state }
{
    requests::number(image::label_setup(table, clearances, labels))
}

// A label request; the number of role requests made for it is put into spent.
#[unsafe(no_mangle)]
pub extern "C" fn sheetguard_label_request(
    table: &mut [u64],
    code: u64,
    a: u64,
    b: u64,
    c: u64,
    spent: &mut u64,
) -> u64
    ensures answer { result ≡ (label_step table.old (ask code a b c)).answer }
    ensures spent { spent.new ≡ (label_step table.old (ask code a b c)).spent }
    ensures table { table.new ≡ (label_step table.old (ask code a b c)).state }
{
    let r = labels::request(table, code, a, b, c);
    *spent = r.spent;
    let answer = r.answer;
    requests::number(answer)
}

// Whether both numbers are labels.
fn are_labels(first: u64, second: u64) -> bool
    ensures { result ≡ (ltb first 32 and ltb second 32) }
{
    if 32 <= first {
        return false;
    }
    second < 32
}

// How two labels stand, by number, or refusal 16 where one of the numbers is no label.
#[unsafe(no_mangle)]
pub extern "C" fn sheetguard_compare_labels(first: u64, second: u64) -> u64
    ensures { result ≡ compare_labels first second }
{
    if !are_labels(first, second) {
        return requests::number(Err(Refusal::BadArgument));
    }
    let label = Label { number: first };
    label.compare(Label { number: second }).number()
}

// Whether there is a user or session i below a limit, and as many words are lent as are to be written.
fn is_known(i: u64, limit: u64, words: usize, wanted: usize) -> bool
    ensures { result ≡ (ltb i limit and eqb words wanted) }
{
    if limit <= i {
        return false;
    }
    words == wanted
}

// Whether the words asked for can be read off the table: yes, or the first refusal that fits.
fn readable(table: &[u64], known: bool) -> Answer
    ensures { number_of result ≡ readable table.now known }
{
    if table.len() != WORDS {
        return Err(Refusal::WrongLength);
    }
    if !sound::is_sound(table) {
        return Err(Refusal::Unsound);
    }
    if !known {
        return Err(Refusal::BadArgument);
    }
    Ok(true)
}

// The masks that the table keeps for session s.
fn kept_masks(table: &[u64], s: usize) -> [u64; 8]
    requires { (length table.now ≡ table_length) × (s < 32) }
    ensures { result ≡ tabulate 8 ((state table.now).masks s) }
{
    let mut masks = [0; 8];
    for x in 0..8 {
        masks[x] = table[MASKS + 8 * s + x];
    }
    masks
}

// The effective permissions of a session, into eight words.
#[unsafe(no_mangle)]
pub extern "C" fn sheetguard_effective_permissions(
    table: &[u64],
    session: u64,
    masks: &mut [u64],
) -> u64
    ensures answer { result ≡ (read_permissions table.now session masks.old).answer }
    ensures words { masks.new ≡ (read_permissions table.now session masks.old).words }
{
    let n = requests::number(readable(table, is_known(session, 32, masks.len(), 8)));
    if n != 1 {
        return n;
    }
    table::overlay(masks, 0, &kept_masks(table, session as usize));
    n
}

// The authorised roles of a user, into one word.
#[unsafe(no_mangle)]
pub extern "C" fn sheetguard_authorised_roles(table: &[u64], user: u64, roles: &mut [u64]) -> u64
    ensures answer { result ≡ (read_roles table.now user roles.old).answer }
    ensures words { roles.new ≡ (read_roles table.now user roles.old).words }
{
    let n = requests::number(readable(table, is_known(user, 64, roles.len(), 1)));
    if n != 1 {
        return n;
    }
    table::overlay(roles, 0, &[table::authorised_roles(table, user as usize)]);
    n
}

// An opening that lends a tally: a yes advances the count of the session's user.
#[unsafe(no_mangle)]
pub extern "C" fn sheetguard_open_tallied(
    table: &mut [u64],
    tally: &mut Tally,
    session: u64,
    object: u64,
    mode: u64,
) -> u64
    ensures { (result ≡ (open_tallied table.old tally.old.counts session object mode).answer)
        × (tally.new.counts ≡ (open_tallied table.old tally.old.counts session object mode).counts)
        × (table.new ≡ (open_tallied table.old tally.old.counts session object mode).table) }
{
    requests::number(tally::open(table, &mut tally.counts, session, object, mode))
}

// Each user's charge and their total, at a rate in cents per thousand openings. (A tally in C is its 64 counts.)
#[unsafe(no_mangle)]
pub extern "C" fn sheetguard_statement(
    counts: &[u32; 64],
    rate: u64,
    charges: &mut [u64; 64],
    total: &mut u64,
) -> u64
    ensures answer { result ≡ (statement_of counts.now rate).answer }
    ensures charges { charges.new ≡ charges_left counts.now rate charges.old }
    ensures total { total.new ≡ total_left counts.now rate total.old }
{
    match tally::statement(counts, rate) {
        Ok(statement) => {
            charges.copy_from_slice(&statement.charges);
            *total = statement.total;
            requests::number(Ok(true))
        }
        Err(why) => requests::number(Err(why)),
    }
}
