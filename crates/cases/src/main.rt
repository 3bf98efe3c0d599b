// Runs the bench cases of the scope and the vectors of the sources through the compiled guard, and writes a row for each: its
// number, its answer, and what it spent. Rows from 100: A to H and J; from 200: vector A of source 000; from 300: the scope's
// label listing, and label 32; from 400: labels that are easily confused; from 501: how labels stand; from 601: wrong lengths and
// values; from 700: starts with roles chosen; from 800: separation sets; from 900: links; from 950: masks; from 981: likeness, in
// either order of the tables. Where a table is set up, the first row is that of the set-up.
#![tactic(auto)]

ghost use Rattle.std.specs.Prelude.{◌≡◌};
ghost use Rattle.cases.specs.Cases.{spent_on};

use machine::Label;
use requests::Answer;
use std::io;
use table::layout::WORDS;

// Role requests, a code and three arguments each: cases A to H, and the sessions of J.
#[rattlefmt::skip]
const BENCH: [[u64; 4]; 21] = [
    // A
    [9, 1, 0, 9], [9, 1, 1, 9],
    // B
    [3, 0, 2, 0], [3, 0, 2, 0],
    // C
    [7, 2, 3, 0], [5, 0, 5, 0], [5, 0, 1, 0], [5, 0, 3, 0],
    // D
    [1, 0, 9, 0],
    // E
    [6, 0, 1, 0], [6, 0, 3, 0],
    // F
    [8, 2, 3, 0], [7, 2, 5, 0], [8, 2, 3, 0],
    // G
    [10, 1, 0, 9], [9, 3, 0, 9], [10, 1, 0, 9],
    // H
    [2, 5, 9, 0], [1, 5, 9, 0],
    // J
    [3, 31, 2, 0], [3, 32, 2, 0],
];

// The requests of source 000, sections 2 and 3, and what follows from its definitions.
#[rattlefmt::skip]
const SOURCE: [[u64; 4]; 46] = [
    [7, 1, 1, 0], [7, 2, 2, 0], [7, 3, 3, 0],
    [9, 1, 0, 1], [9, 2, 0, 2], [9, 3, 1, 2], [9, 4, 1, 1],
    [3, 1, 1, 0], [3, 2, 1, 0], [3, 3, 2, 0], [3, 4, 3, 0],
    [5, 1, 1, 0], [5, 2, 1, 0], [5, 4, 4, 0],
    [1, 1, 1, 0], [1, 1, 2, 0], [1, 1, 1, 1], [1, 3, 2, 0], [1, 4, 1, 1], [1, 4, 2, 1],
    [5, 3, 1, 0], [6, 3, 1, 0], [5, 3, 2, 0], [1, 3, 2, 0], [5, 4, 3, 0], [1, 4, 2, 1],
    [6, 4, 4, 0], [6, 4, 3, 0], [10, 2, 0, 2], [9, 1, 0, 2], [10, 2, 0, 2],
    [6, 1, 1, 0], [8, 1, 1, 0], [7, 1, 2, 0], [8, 1, 1, 0], [2, 1, 1, 0], [6, 1, 1, 0], [2, 1, 2, 0], [6, 1, 1, 0],
    [8, 1, 1, 0], [6, 2, 1, 0], [8, 1, 1, 0],
    [6, 9, 1, 0], [1, 9, 1, 0], [2, 9, 1, 0], [9, 1, 2, 1],
];

// Label requests: lines 6 to 13 of the listing, and label 32; a start spends 1 (02, S-1).
#[rattlefmt::skip]
const LISTING: [[u64; 4]; 10] = [
    [3, 2, 4, 17], [1, 2, 7, 0], [1, 2, 7, 1], [1, 2, 8, 1], [3, 3, 4, 18], [5, 4, 9, 0], [4, 2, 0, 0], [5, 4, 9, 0],
    [5, 4, 32, 0], [3, 0, 4, 32],
];

// A session at level 9 beside labels 9 and 10.
#[rattlefmt::skip]
const CONFUSED: [[u64; 4]; 4] = [
    [3, 0, 0, 9], [1, 0, 1, 0], [1, 0, 2, 1], [1, 0, 1, 1],
];

// Pairs of labels, the first beside the second.
#[rattlefmt::skip]
const PAIRS: [[u64; 2]; 15] = [
    [9, 10], [10, 9], [10, 1], [1, 10], [9, 1],
    [17, 18], [18, 17], [31, 0], [0, 31], [0, 0],
    [1, 9], [8, 7], [7, 8], [15, 7], [20, 20],
];

// Role requests: user 2 is assigned role 3, and starts are asked for with roles authorised for it and others.
#[rattlefmt::skip]
const CHOSEN: [[u64; 4]; 16] = [
    [7, 2, 3, 0], [9, 1, 0, 9],
    [3, 0, 2, 10], [3, 1, 2, 40], [3, 1, 2, u64::MAX], [3, 32, 2, u64::MAX],
    [3, 1, 2, 0], [3, 1, 2, 8],
    [1, 0, 9, 0], [1, 1, 9, 0],
    [3, 2, 2, 8], [6, 2, 3, 0], [1, 2, 9, 0],
    [3, 3, 64, 0], [3, 4, 3, 1], [3, 4, 3, 0],
];

// Role requests: sets over the roles 1, 3 and 5 with good and bad bounds, and assignments, starts and activations that would and
// would not break one; sets 15 and 16, and code 15.
#[rattlefmt::skip]
const SETS: [[u64; 4]; 19] = [
    [11, 16, 42, 1], [11, 0, 42, 1], [11, 0, 42, 0], [11, 0, 0, 2], [11, 0, 42, 4], [11, 0, 42, 3],
    [7, 2, 5, 0], [7, 2, 3, 0], [11, 0, 42, 2], [11, 0, 0, 0], [7, 2, 5, 0],
    [12, 0, 42, 2], [3, 0, 2, 32], [5, 0, 3, 0], [5, 0, 5, 0], [3, 1, 2, 40],
    [12, 15, 42, 2], [12, 16, 42, 2], [15, 0, 0, 0],
];

// Role requests: links made and taken away, among them one to the role itself, one back, one that is there, one to a junior of a
// junior and one that is not there; with a static set, a session that holds an opening and a role that is active.
#[rattlefmt::skip]
const LINKS: [[u64; 4]; 30] = [
    [13, 5, 5, 0], [13, 1, 5, 0], [13, 5, 1, 0], [13, 5, 3, 0], [14, 5, 3, 0], [14, 5, 3, 0], [14, 4, 4, 0],
    [13, 5, 3, 1], [13, 64, 3, 0], [14, 5, 64, 0],
    [11, 0, 130, 2], [7, 9, 7, 0], [13, 7, 1, 0], [11, 0, 0, 0], [13, 7, 1, 0], [14, 7, 1, 0],
    [9, 1, 0, 9], [7, 2, 5, 0], [3, 0, 2, 32], [1, 0, 9, 0],
    [14, 5, 1, 0], [13, 5, 3, 0], [14, 5, 1, 0], [14, 3, 1, 0], [2, 0, 9, 0], [14, 3, 1, 0],
    [5, 0, 1, 0], [13, 3, 1, 0], [5, 0, 1, 0], [14, 3, 1, 0],
];

// Role requests: openings that follow what grants, active roles and links give, also to sessions that the request does not name, and
// a drop, a revocation and an unlink of what is held open.
#[rattlefmt::skip]
const MASKS: [[u64; 4]; 29] = [
    [9, 1, 0, 9], [7, 2, 5, 0], [3, 0, 2, 32], [3, 1, 2, 8], [1, 1, 9, 0], [10, 1, 0, 9], [2, 1, 9, 0], [10, 1, 0, 9],
    [1, 0, 9, 0], [1, 1, 9, 0], [9, 3, 0, 9], [1, 0, 9, 0], [6, 0, 5, 0], [5, 0, 3, 0], [6, 0, 5, 0],
    [4, 0, 0, 0], [1, 0, 9, 0], [3, 0, 2, 0], [1, 0, 9, 0],
    [7, 4, 7, 0], [3, 3, 4, 128], [1, 3, 9, 0], [13, 7, 3, 0], [1, 3, 9, 0],
    [14, 7, 3, 0], [2, 3, 9, 0], [14, 7, 3, 0], [1, 3, 9, 0],
    [1, 1, 9, 0],
];

// Role requests on a copy of a table, each of which leaves it like the table or not: assignments of juniors, of other users, fewer;
// links; sets; sessions without roles; a grant; and a session that may open.
#[rattlefmt::skip]
const LIKENESS: [[u64; 4]; 19] = [
    [7, 2, 3, 0], [7, 2, 1, 0], [7, 63, 1, 0], [8, 63, 1, 0], [7, 0, 0, 0], [8, 0, 0, 0],
    [8, 2, 5, 0], [7, 2, 5, 0],
    [13, 5, 4, 0], [14, 5, 4, 0], [13, 7, 5, 0], [13, 5, 1, 0],
    [11, 0, 138, 3], [12, 15, 130, 2],
    [3, 0, 7, 0], [9, 1, 0, 9], [3, 1, 2, 32], [4, 1, 0, 0], [3, 31, 2, 2],
];

// What a role request with this answer spends.
fn spent_on(answer: u64) -> u64
    ensures { result ≡ spent_on answer }
{
    u64::from(answer <= 1)
}

// Writes a row.
fn show(rt: &impl Print, number: u64, answer: u64, spent: u64) -> io::Result<()> {
    println!(rt; "{number}\t{answer}\t{spent}")
}

// What a role request comes to: its answer, and what it spent.
fn play_role(table: &mut [u64; WORDS], &[code, a, b, c]: &[u64; 4]) -> (u64, u64) {
    let answer = requests::number(roles::request(table, code, a, b, c));
    (answer, spent_on(answer))
}

// What a label request comes to.
fn play_label(table: &mut [u64; WORDS], &[code, a, b, c]: &[u64; 4]) -> (u64, u64) {
    let r = labels::request(table, code, a, b, c);
    (requests::number(r.answer), r.spent)
}

// Role 5 above 3, 3 above 1, and only (0, 9) a permission.
fn set_up_bench(table: &mut [u64; WORDS]) -> Answer {
    let mut direct = [0; 64];
    direct[5] = 8;
    direct[3] = 2;
    setup::role_setup(table, &direct, &[512, 0, 0, 0, 0, 0, 0, 0])
}

// Role 1 above 2, 3 above 4; (0, 1), (0, 2), (1, 1) and (1, 2) permissions.
fn set_up_source(table: &mut [u64; WORDS]) -> Answer {
    let mut direct = [0; 64];
    direct[1] = 4;
    direct[3] = 16;
    setup::role_setup(table, &direct, &[6, 6, 0, 0, 0, 0, 0, 0])
}

// User 4 with clearance 17, objects 7 and 8 with labels 9 and 25.
fn set_up_listing(table: &mut [u64; WORDS]) -> Answer {
    let mut clearances = [0; 64];
    let mut labels = [0; 64];
    clearances[4] = 17;
    labels[7] = 9;
    labels[8] = 25;
    image::label_setup(table, &clearances, &labels)
}

// User 0 with clearance 9, objects 1 and 2 with labels 9 and 10.
fn set_up_confused(table: &mut [u64; WORDS]) -> Answer {
    let mut clearances = [0; 64];
    let mut labels = [0; 64];
    clearances[0] = 9;
    labels[1] = 9;
    labels[2] = 10;
    image::label_setup(table, &clearances, &labels)
}

// The rows of a set-up and of requests after it, numbered from first on.
fn show_table<S, F>(
    rt: &impl Print,
    first: u64,
    set_up: S,
    requests: &[[u64; 4]],
    play: F,
) -> io::Result<()>
where
    S: FnOnce(&mut [u64; WORDS]) -> Answer,
    F: Fn(&mut [u64; WORDS], &[u64; 4]) -> (u64, u64),
    requires set_up { S.IsAlwaysCallable set_up }
    requires play { F.IsAlwaysCallable play }
{
    let mut table = [0; WORDS];
    let answer = set_up(&mut table);
    show(rt, first, requests::number(answer), 0)?;
    for (number, request) in (first..).skip(1).zip(requests) {
        let (answer, spent) = play(&mut table, request);
        show(rt, number, answer, spent)?;
    }
    Ok(())
}

// How the labels of each pair stand, by number.
fn show_pairs(rt: &impl Print) -> io::Result<()> {
    for (number, &[a, b]) in (501..).zip(&PAIRS) {
        let standing = Label { number: a }.compare(Label { number: b });
        show(rt, number, standing.number(), 0)?;
    }
    Ok(())
}

// Tables a word short and a word long, and label 32 in a set-up.
fn show_refused(rt: &impl Print) -> io::Result<()> {
    let answers = [
        roles::request(&mut [0; WORDS - 1], 4, 0, 0, 0),
        roles::request(&mut [0; WORDS + 1], 4, 0, 0, 0),
        image::label_setup(&mut [0; WORDS], &[32; 64], &[0; 64]),
        image::label_setup(&mut [0; WORDS], &[0; 64], &[32; 64]),
    ];
    for (number, answer) in (601..).zip(answers) {
        show(rt, number, requests::number(answer), 0)?;
    }
    Ok(())
}

// Role requests after the set-up of the bench and the assignment of role 5 to user 2, each with the likeness of what was and what
// is, in either order.
fn show_likeness(rt: &impl Print) -> io::Result<()> {
    let mut table = [0; WORDS];
    let _ = set_up_bench(&mut table);
    play_role(&mut table, &[7, 2, 5, 0]);
    let kept = table;
    for (number, request) in (981..).zip(&LIKENESS) {
        play_role(&mut table, request);
        let one = requests::number(alike::alike(&kept, &table));
        let other = requests::number(alike::alike(&table, &kept));
        show(rt, number, one, other)?;
    }
    Ok(())
}

// All rows, until one cannot be written.
fn show_cases(rt: &impl Print) -> io::Result<()> {
    show_table(rt, 100, set_up_bench, &BENCH, play_role)?;
    show_table(rt, 200, set_up_source, &SOURCE, play_role)?;
    show_table(rt, 300, set_up_listing, &LISTING, play_label)?;
    show_table(rt, 400, set_up_confused, &CONFUSED, play_label)?;
    show_pairs(rt)?;
    show_refused(rt)?;
    show_table(rt, 700, set_up_bench, &CHOSEN, play_role)?;
    show_table(rt, 800, set_up_bench, &SETS, play_role)?;
    show_table(rt, 900, set_up_bench, &LINKS, play_role)?;
    show_table(rt, 950, set_up_bench, &MASKS, play_role)?;
    show_likeness(rt)
}

// A row that cannot be written ends the program; its status is 0 then too.
fn main(rt: HostRuntime) {
    let _ = show_cases(&rt);
}
