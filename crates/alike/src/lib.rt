// Likeness of two tables.
#![tactic(auto)]

ghost use Rattle.std.specs.Prelude.{◌≡◌, true};
ghost use Rattle.bits.specs.Words.{all};
ghost use Rattle.table.specs.Reading.{state};
ghost use Rattle.sound.specs.Answers.{is_sound};
ghost use Rattle.requests.specs.Answer.{number_of};
ghost use Rattle.alike.specs.Likeness.{same_session, same_user, likeness};

use requests::{Answer, Refusal};
use table::layout::{HOLDS, MASKS, WORDS};

// Whether each session holds the same in both tables, which are known to be sound, and the same is effective for it: what it may
// open stands in its masks.
fn same_sessions(first: &[u64; WORDS], second: &[u64; WORDS]) -> bool
    requires { (is_sound first.now ≡ true) × (is_sound second.now ≡ true) }
    ensures { result ≡ all 32 (λ s. same_session (state first.now) (state second.now) s) }
{
    (0..256).all(|i| first[HOLDS + i] == second[HOLDS + i] && first[MASKS + i] == second[MASKS + i])
}

// Whether every user is authorised for the same roles in both tables.
fn same_users(first: &[u64; WORDS], second: &[u64; WORDS]) -> bool
    ensures { result ≡ all 64 (λ u. same_user (state first.now) (state second.now) u) }
{
    (0..64).all(|u| table::authorised_roles(first, u) == table::authorised_roles(second, u))
}

// Whether the two tables are alike; neither is changed.
pub fn alike(first: &[u64], second: &[u64]) -> Answer
    ensures { number_of result ≡ likeness first.now second.now }
{
    let first = first.as_array::<WORDS>().ok_or(Refusal::WrongLength)?;
    if !sound::is_sound(first) {
        return Err(Refusal::Unsound);
    }
    let second = second.as_array::<WORDS>().ok_or(Refusal::WrongLength)?;
    if !sound::is_sound(second) {
        return Err(Refusal::Unsound);
    }
    if !same_sessions(first, second) {
        return Ok(false);
    }
    Ok(same_users(first, second))
}
