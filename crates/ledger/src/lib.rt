// What a transcript keeps from line to line, and what each line comes to.
#![tactic(auto)]

ghost use Rattle.std.specs.Prelude.{◌≡◌, Ok};
ghost use Rattle.requests.specs.Answer.{number_of};
ghost use Rattle.ledger.specs.Store.{with_table, added, stored};
ghost use Rattle.ledger.specs.Step.{outcome, unguarded, lifted, set_up_by, phase_after, performed, step};
ghost use Rattle.ledger.specs.Ledger.{shown, SameLists};

use entries::{Due, Mode, Phase, Setting};
use labels::LabelAnswer;
use reader::Line;
use requests::{Answer, Refusal};

// What a transcript keeps from line to line: where it stands, and a lent table and lists.
#[derive(Drop)]
pub struct Ledger<'a> {
    pub phase: Phase,
    pub table: &'a mut [u64],
    pub juniors: &'a mut [u64],
    pub permissions: &'a mut [u64],
    pub clearances: &'a mut [u8],
    pub labels: &'a mut [u8],
}

// What a line comes to.
#[derive(Clone, Copy)]
pub struct Reply {
    pub answer: u64,
    pub spent: u64,
}

// Puts the member v into word i of a list.
fn add_member(list: &mut [u64], last: u64, i: u64, v: u64) -> Answer
    ensures { outcome (number_of result) 0 list.new ≡ added list.old last i v }
{
    if last < i || 63 < v {
        return Err(Refusal::BadValue);
    }
    let at = i as usize;
    if at < list.len() {
        list[at] = bits::with(list[at], v as usize);
    }
    Ok(true)
}

// Stores the label v at place i of a list.
fn store_label(list: &mut [u8], i: u64, v: u64) -> Answer
    ensures { outcome (number_of result) 0 list.new ≡ stored list.old i v }
{
    if 63 < i || 31 < v {
        return Err(Refusal::BadValue);
    }
    let at = i as usize;
    if at < list.len() {
        list[at] = v as u8;
    }
    Ok(true)
}

// The phase after `run` with an answer.
fn phase_after(m: Mode, answer: Answer) -> Phase
    ensures { result ≡ phase_after m (number_of answer) }
{
    match answer {
        Ok(true) => Phase::Running(m),
        Ok(false) => Phase::SettingUp(m),
        Err(_) => Phase::SettingUp(m),
    }
}

// An answer that spends nothing.
fn free(answer: Answer) -> Reply
    ensures answer { result.answer ≡ number_of answer }
    ensures spent { result.spent ≡ 0 }
{
    Reply {
        answer: requests::number(answer),
        spent: 0,
    }
}

impl Ledger<'_> {
    // A set-up line.
    fn put(&mut self, s: Setting, i: u64, v: u64) -> Answer
        ensures lists { SameLists self.old self.new }
        ensures step { outcome (number_of result) 0 (shown self.new) ≡ performed unguarded (shown self.old) (Ok (Due.Put s i v)) }
    {
        match s {
            Setting::Juniors => add_member(self.juniors, 63, i, v),
            Setting::Permissions => add_member(self.permissions, 7, i, v),
            Setting::Clearances => store_label(self.clearances, i, v),
            Setting::Labels => store_label(self.labels, i, v),
        }
    }

    // The set-up of a mode.
    fn set_up(&mut self, m: Mode) -> Answer
        ensures lists { SameLists self.old self.new }
        ensures made { outcome (number_of result) 0 (shown self.new) ≡ lifted (with_table (shown self.old)) (set_up_by m (shown self.old)) }
    {
        match m {
            Mode::RoleMode => {
                let juniors = &mut *self.juniors;
                let permissions = &mut *self.permissions;
                setup::role_setup(self.table, juniors, permissions)
            }
            Mode::LatticeMode => {
                let clearances = &mut *self.clearances;
                let labels = &mut *self.labels;
                image::label_setup(self.table, clearances, labels)
            }
        }
    }

    // `run` in a mode: an accepted set-up ends here.
    fn run(&mut self, m: Mode) -> Answer
        ensures lists { SameLists self.old self.new }
        ensures step { outcome (number_of result) 0 (shown self.new) ≡ performed unguarded (shown self.old) (Ok (Due.SetUp m)) }
    {
        let answer = self.set_up(m);
        self.phase = phase_after(m, answer);
        answer
    }

    // A request in a mode, on a table that is known to be sound where the answer counts.
    fn serve(&mut self, m: Mode, code: u64, a: u64, b: u64, c: u64) -> Reply
        ensures lists { SameLists self.old self.new }
        ensures step { outcome result.answer result.spent (shown self.new) ≡ performed unguarded (shown self.old) (Ok (Due.Request m code a b c)) }
    {
        match m {
            Mode::RoleMode => {
                let answer = roles::serve(self.table, code, a, b, c);
                let spent = match answer {
                    Err(_) => 0,
                    Ok(_) => 1,
                };
                Reply {
                    answer: requests::number(answer),
                    spent,
                }
            }
            Mode::LatticeMode => {
                let LabelAnswer { answer, spent } = labels::serve(self.table, code, a, b, c);
                Reply {
                    answer: requests::number(answer),
                    spent,
                }
            }
        }
    }

    // What a line comes to.
    pub fn act(&mut self, line: Option<Line>) -> Reply
        ensures lists { SameLists self.old self.new }
        ensures step { outcome result.answer result.spent (shown self.new) ≡ step unguarded (shown self.old) line }
    {
        match entries::due_of(self.phase, line) {
            Err(f) => Reply {
                answer: entries::fault_number(f),
                spent: 0,
            },
            Ok(Due::Choose(m)) => {
                self.phase = Phase::SettingUp(m);
                free(Ok(true))
            }
            Ok(Due::Put(s, i, v)) => free(self.put(s, i, v)),
            Ok(Due::SetUp(m)) => free(self.run(m)),
            Ok(Due::Request(m, code, a, b, c)) => self.serve(m, code, a, b, c),
        }
    }
}
