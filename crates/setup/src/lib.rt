// The role set-up.
#![tactic(auto)]

ghost use Rattle.std.specs.Prelude.{◌≡◌, length, get_or};
ghost use Rattle.bits.specs.Words.{tabulate};
ghost use Rattle.bits.specs.Sets.{◌without◌};
ghost use Rattle.requests.specs.Answer.{number_of};
ghost use Rattle.setup.specs.SetUp.{role_set_up};

use requests::{Answer, Refusal};
use table::layout::{ASSIGNED, DIRECT, PERMITTED, WORDS};

// The direct juniors as given, without own bits.
fn without_own(direct: &[u64; 64]) -> [u64; 64]
    ensures { result ≡ tabulate 64 (λ r. get_or direct.now r 0 without r) }
{
    std::array::from_fn(|r| bits::without(direct[r], r))
}

// The role set-up: the closure of 64 words of direct juniors, 8 words of permissions, the direct juniors, and 0 elsewhere.
pub fn role_setup(t: &mut [u64], direct: &[u64], permissions: &[u64]) -> Answer
    ensures answer { number_of result ≡ (role_set_up t.old direct.now permissions.now).answer }
    ensures table { t.new ≡ (role_set_up t.old direct.now permissions.now).state }
{
    let table = t.as_mut_array::<WORDS>().ok_or(Refusal::WrongLength)?;
    let direct = direct.as_array::<64>().ok_or(Refusal::BadListLength)?;
    let permissions = permissions.as_array::<8>().ok_or(Refusal::BadListLength)?;
    let given = without_own(direct);
    let rows = closure::closure_of(&given);
    if !closure::is_acyclic(&rows) {
        return Err(Refusal::Cycle);
    }
    table::overlay(table, 0, &rows);
    table::overlay(table, PERMITTED, permissions);
    table::clear_from(table, ASSIGNED);
    table::overlay(table, DIRECT, &given);
    Ok(true)
}
