// What a line asks for where it stands: refusals 10 and 11.
#![tactic(auto)]

ghost use Rattle.std.specs.Prelude.{◌≡◌};
ghost use Rattle.entries.specs.Words.{taking, role_item, lattice_item, mode_item, item_in, numbers_of, fault_number, due_in, due_of};

use reader::{Fields, Line, Word};

// The mode that a transcript's first accepted line chooses.
#[derive(Clone, Copy, PartialEq, Eq, Debug)]
pub enum Mode {
    RoleMode,
    LatticeMode,
}

// Where a transcript stands: no mode yet, before an accepted `run`, or behind it.
#[derive(Clone, Copy, PartialEq, Eq, Debug)]
pub enum Phase {
    Opening,
    SettingUp(Mode),
    Running(Mode),
}

// The list that a set-up line changes.
#[derive(Clone, Copy, PartialEq, Eq, Debug)]
pub enum Setting {
    Juniors,
    Permissions,
    Clearances,
    Labels,
}

// What a line of the right form asks for, wherever it stands.
#[derive(Clone, Copy, PartialEq, Eq, Debug)]
pub enum Item {
    Chooses(Mode),
    Sets(Setting),
    Runs,
    Asks(u64),
}

// Why a line is refused for its form or its place, by its number.
#[derive(Clone, Copy, PartialEq, Eq, Debug)]
pub enum Fault {
    WrongForm = 10,
    OutOfPlace = 11,
}

// What is due for a line where it stands, with the numbers that it takes.
#[derive(Clone, Copy, PartialEq, Eq, Debug)]
pub enum Due {
    Choose(Mode),
    Put(Setting, u64, u64),
    SetUp(Mode),
    Request(Mode, u64, u64, u64, u64),
}

// A line's fields: how many there are, and their numbers.
#[derive(Clone, Copy, PartialEq, Eq, Debug)]
pub struct Numbers {
    pub count: u64,
    pub a: u64,
    pub b: u64,
    pub c: u64,
}

// The item of a word that takes k fields, on a line with n.
fn taken(k: u64, i: Item, n: u64) -> Option<Item>
    ensures { result ≡ taking k i n }
{
    (n == k).then_some(i)
}

// The words of `roles`.
#[tactic(auto, unfolding(crate::specs::Words::role_item))]
fn role_item(w: Word, n: u64) -> Option<Item>
    ensures { result ≡ role_item w n }
{
    match w {
        Word::Roles => taken(0, Item::Chooses(Mode::RoleMode), n),
        Word::Lattice => taken(0, Item::Chooses(Mode::LatticeMode), n),
        Word::Above => taken(2, Item::Sets(Setting::Juniors), n),
        Word::Permit => taken(2, Item::Sets(Setting::Permissions), n),
        Word::Clear => None,
        Word::Label => None,
        Word::Run => taken(0, Item::Runs, n),
        Word::Open => taken(3, Item::Asks(1), n),
        Word::Close => taken(3, Item::Asks(2), n),
        Word::Start => taken(3, Item::Asks(3), n), // session, user, roles
        Word::End => taken(1, Item::Asks(4), n),
        Word::Activate => taken(2, Item::Asks(5), n),
        Word::Drop => taken(2, Item::Asks(6), n),
        Word::Assign => taken(2, Item::Asks(7), n),
        Word::Deassign => taken(2, Item::Asks(8), n),
        Word::Grant => taken(3, Item::Asks(9), n),
        Word::Revoke => taken(3, Item::Asks(10), n),
        Word::Reclear => None,
    }
}

// The words of `lattice`.
#[tactic(auto, unfolding(crate::specs::Words::lattice_item))]
fn lattice_item(w: Word, n: u64) -> Option<Item>
    ensures { result ≡ lattice_item w n }
{
    match w {
        Word::Roles => taken(0, Item::Chooses(Mode::RoleMode), n),
        Word::Lattice => taken(0, Item::Chooses(Mode::LatticeMode), n),
        Word::Above => None,
        Word::Permit => None,
        Word::Clear => taken(2, Item::Sets(Setting::Clearances), n),
        Word::Label => taken(2, Item::Sets(Setting::Labels), n),
        Word::Run => taken(0, Item::Runs, n),
        Word::Open => taken(3, Item::Asks(1), n),
        Word::Close => taken(3, Item::Asks(2), n),
        Word::Start => taken(3, Item::Asks(3), n), // session, user, level
        Word::End => taken(1, Item::Asks(4), n),
        Word::Activate => None,
        Word::Drop => None,
        Word::Assign => None,
        Word::Deassign => None,
        Word::Grant => None,
        Word::Revoke => None,
        Word::Reclear => taken(2, Item::Asks(5), n),
    }
}

// The words of a mode.
#[tactic(auto, unfolding(crate::specs::Words::mode_item))]
fn mode_item(m: Mode, w: Word, n: u64) -> Option<Item>
    ensures { result ≡ mode_item m w n }
{
    match m {
        Mode::RoleMode => role_item(w, n),
        Mode::LatticeMode => lattice_item(w, n),
    }
}

// What a word with n fields asks for in the mode of the phase.
#[tactic(auto, unfolding(crate::specs::Words::item_in))]
fn item_in(p: Phase, w: Word, n: u64) -> Option<Item>
    ensures { result ≡ item_in p w n }
{
    match p {
        Phase::Opening => role_item(w, n),
        Phase::SettingUp(m) | Phase::Running(m) => mode_item(m, w, n),
    }
}

// The numbers of a line's fields.
#[tactic(auto, unfolding(crate::specs::Words::numbers_of))]
fn numbers_of(fs: Fields) -> Numbers
    ensures { result ≡ numbers_of fs }
{
    match fs {
        Fields::Without => Numbers {
            count: 0,
            a: 0,
            b: 0,
            c: 0,
        },
        Fields::One(a) => Numbers {
            count: 1,
            a,
            b: 0,
            c: 0,
        },
        Fields::Two(a, b) => Numbers {
            count: 2,
            a,
            b,
            c: 0,
        },
        Fields::Three(a, b, c) => Numbers { count: 3, a, b, c },
    }
}

// The number of a fault.
pub fn fault_number(f: Fault) -> u64
    ensures { result ≡ fault_number f }
{
    f as u64
}

// What is due for an item with its numbers in a phase.
#[tactic(auto, unfolding(crate::specs::Words::due_in))]
fn due_in(p: Phase, i: Item, v: Numbers) -> Result<Due, Fault>
    ensures { result ≡ due_in p i v }
{
    match (p, i) {
        (Phase::Opening, Item::Chooses(m)) => Ok(Due::Choose(m)),
        (Phase::Opening, _) => Err(Fault::WrongForm),
        (Phase::SettingUp(_), Item::Sets(s)) => Ok(Due::Put(s, v.a, v.b)),
        (Phase::SettingUp(m), Item::Runs) => Ok(Due::SetUp(m)),
        (Phase::Running(m), Item::Asks(code)) => Ok(Due::Request(m, code, v.a, v.b, v.c)),
        _ => Err(Fault::OutOfPlace),
    }
}

// What is due for a line in a phase.
#[tactic(auto, unfolding(crate::specs::Words::due_of, crate::specs::Words::due_if))]
pub fn due_of(p: Phase, line: Option<Line>) -> Result<Due, Fault>
    ensures { result ≡ due_of p line }
{
    let Line { word, fields } = line.ok_or(Fault::WrongForm)?;
    let v = numbers_of(fields);
    let i = item_in(p, word, v.count).ok_or(Fault::WrongForm)?;
    due_in(p, i, v)
}
