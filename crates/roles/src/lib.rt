// The role guard: fourteen requests on a lent table.
#![tactic(auto)]

ghost use Rattle.std.specs.Prelude.{◌≡◌, MatchResult};
ghost use Rattle.requests.specs.Request.{Ask, ask, refuse};
ghost use Rattle.requests.specs.Answer.{refusal_number, number_of};
ghost use Rattle.rbac.specs.Guard.{role_step, sound_step};

use requests::{Answer, Refusal};
use table::layout::WORDS;

// Refuses a table of another length, and one that is not sound.
fn check_sound(t: &[u64]) -> Result<(), Refusal>
    ensures { (q : Ask) → MatchResult result
        (λ passed. role_step t.now q ≡ sound_step t.now q)
        (λ r. role_step t.now q ≡ refuse (refusal_number r) t.now) }
{
    if t.len() != WORDS {
        return Err(Refusal::WrongLength);
    }
    if !sound::is_sound(t) {
        return Err(Refusal::Unsound);
    }
    Ok(())
}

// A role request on a table that is known to be sound: `request` without the soundness test.
pub fn serve(t: &mut [u64], code: u64, a: u64, b: u64, c: u64) -> Answer
    ensures answer { number_of result ≡ (sound_step t.old (ask code a b c)).answer }
    ensures table { t.new ≡ (sound_step t.old (ask code a b c)).state }
{
    if t.len() != WORDS {
        return Err(Refusal::WrongLength);
    }
    if 6 < code {
        return administration::serve(t, code, a, b, c);
    }
    sessions::serve(t, code, a, b, c)
}

// A role request on a lent table of any length and contents.
pub fn request(t: &mut [u64], code: u64, a: u64, b: u64, c: u64) -> Answer
    ensures answer { number_of result ≡ (role_step t.old (ask code a b c)).answer }
    ensures table { t.new ≡ (role_step t.old (ask code a b c)).state }
{
    check_sound(t)?;
    serve(t, code, a, b, c)
}

// What an opening would be answered; the table, of any length and contents, is only read.
pub fn opening(t: &[u64], s: u64, o: u64, x: u64) -> Answer
    ensures { number_of result ≡ (role_step t.now (ask 1 s o x)).answer }
{
    check_sound(t)?;
    sessions::opening(t, s, o, x)
}
