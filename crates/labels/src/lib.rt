// The label layer: five label requests on a lent table, carried out by role requests.
#![tactic(auto)]

ghost use Rattle.std.specs.Prelude.{◌≡◌, true, ◌+◌, ◌-◌, ◌≤◌, ◌<◌, [], length, get_or};
ghost use Rattle.bits.specs.Words.{◌with◌};
ghost use Rattle.table.specs.Reading.{state};
ghost use Rattle.table.specs.Table.{table_length};
ghost use Rattle.requests.specs.Request.{ask};
ghost use Rattle.rbac.specs.Guard.{sound_step};
ghost use Rattle.requests.specs.Answer.{refusal_number, number_of};
ghost use Rattle.machine.specs.Machine.{reclearing, limits, in_range, decode};
ghost use Rattle.labels.specs.Guard.{single, says_yes, plan, carry_out, label_step, image_step};
ghost use Rattle.labels.specs.Reply.{Replied};

use requests::{Answer, Refusal};
use table::layout::{ASSIGNED, WORDS};

// An answer, and the number of role requests that were made for it.
#[derive(Clone, Copy)]
pub struct LabelAnswer {
    pub answer: Answer,
    pub spent: u64,
}

// A refusal spends nothing.
fn refused(why: Refusal) -> LabelAnswer
    ensures answer { number_of result.answer ≡ refusal_number why }
    ensures spent { result.spent ≡ 0 }
{
    LabelAnswer {
        answer: Err(why),
        spent: 0,
    }
}

// Makes one role request; whether its answer is yes.
fn is_yes(t: &mut [u64; WORDS], code: u64, a: u64, b: u64) -> bool
    ensures answer { result ≡ says_yes sound_step t.old (ask code a b 0) }
    ensures table { t.new ≡ (sound_step t.old (ask code a b 0)).state }
{
    roles::serve(t, code, a, b, 0) == Ok(true)
}

// A label request that is one role request.
fn single(t: &mut [u64; WORDS], code: u64, a: u64, b: u64, c: u64) -> LabelAnswer
    ensures { Replied result t.new (carry_out sound_step t.old (single sound_step t.old (ask code a b c))) }
{
    LabelAnswer {
        answer: roles::serve(t, code, a, b, c),
        spent: 1,
    }
}

// The read role and the write role of level y.
fn level_roles(y: u64) -> u64
    requires { y < 32 }
    ensures { result ≡ 0 with y with (32 + y) }
{
    let level = y as usize;
    bits::with(bits::with(0, level), 32 + level)
}

// User u gets the clearance c: the new role before the old one is taken, and taken back where a session needs the old one.
fn reclear(t: &mut [u64; WORDS], u: u64, c: u64) -> LabelAnswer
    requires { u < 64 }
    ensures { Replied result t.new (carry_out sound_step t.old (plan sound_step t.old (reclearing u c))) }
{
    let old = image::label_of(t[ASSIGNED + u as usize]) as u64;
    if old == c {
        return LabelAnswer {
            answer: Ok(true),
            spent: 0,
        };
    }
    is_yes(t, 7, u, c);
    if !is_yes(t, 8, u, old) {
        is_yes(t, 8, u, c);
        return LabelAnswer {
            answer: Ok(false),
            spent: 3, // codes 7, 8 and 8
        };
    }
    LabelAnswer {
        answer: Ok(true),
        spent: 2, // codes 7 and 8
    }
}

// The largest value of each argument, a row for each code from 1 on; one that is not listed must be 0.
static LIMITS: [[u64; 3]; 5] = [
    [31, 63, 1],
    [31, 63, 1],
    [31, 63, 31],
    [31, 0, 0],
    [63, 31, 0],
];

// The label request of a code from 1 to 5, with its arguments in range.
fn perform(t: &mut [u64; WORDS], code: u64, a: u64, b: u64, c: u64) -> LabelAnswer
    requires { (1 ≤ code) × (code ≤ 5) × (in_range (ask code a b c) ≡ true) }
    ensures { Replied result t.new (carry_out sound_step t.old (plan sound_step t.old (decode (ask code a b c)))) }
{
    match code {
        1 => single(t, 1, a, b, c),
        2 => single(t, 2, a, b, c),
        3 => single(t, 3, a, b, level_roles(c)),
        4 => single(t, 4, a, 0, 0),
        _ => reclear(t, a, b),
    }
}

// A label request on a table that is known to be a sound image: `request` without these two tests.
pub fn serve(t: &mut [u64], code: u64, a: u64, b: u64, c: u64) -> LabelAnswer
    ensures answer { number_of result.answer ≡ (image_step t.old (ask code a b c)).answer }
    ensures spent { result.spent ≡ (image_step t.old (ask code a b c)).spent }
    ensures table { t.new ≡ (image_step t.old (ask code a b c)).state }
{
    let Some(table) = t.as_mut_array::<WORDS>() else {
        return refused(Refusal::WrongLength);
    };
    if code < 1 || 5 < code {
        return refused(Refusal::BadCode);
    }
    if !requests::within(LIMITS[code as usize - 1], a, b, c) {
        return refused(Refusal::BadArgument);
    }
    perform(table, code, a, b, c)
}

// A label request on a lent table of any length and contents.
pub fn request(t: &mut [u64], code: u64, a: u64, b: u64, c: u64) -> LabelAnswer
    ensures answer { number_of result.answer ≡ (label_step t.old (ask code a b c)).answer }
    ensures spent { result.spent ≡ (label_step t.old (ask code a b c)).spent }
    ensures table { t.new ≡ (label_step t.old (ask code a b c)).state }
{
    if t.len() != WORDS {
        return refused(Refusal::WrongLength);
    }
    if !sound::is_sound(t) {
        return refused(Refusal::Unsound);
    }
    if !image::is_image(t) {
        return refused(Refusal::NoImage);
    }
    serve(t, code, a, b, c)
}
