// A label set-up and a list of label requests in one call.
#![tactic(auto)]

ghost use Rattle.std.specs.Prelude.{◌≡◌, ◌*◌, ◌/◌, length};
ghost use Rattle.requests.specs.Answer.{number_of};
ghost use Rattle.machine.specs.Wall.{trace, final};
ghost use Rattle.labels.specs.Guard.{image_step};
ghost use Rattle.simulation.specs.Run.{serve_at, asks, flat, machine_run};

use labels::LabelAnswer;
use requests::{Answer, Refusal};
use table::layout::WORDS;

// The label request at place i of a list of words, four words each, on a table that is known to be a sound image; 18 past the
// end of the list.
pub fn serve_at(t: &mut [u64], words: &[u64], i: usize) -> LabelAnswer
    ensures answer { number_of result.answer ≡ (serve_at t.old words.now i).answer }
    ensures spent { result.spent ≡ (serve_at t.old words.now i).spent }
    ensures table { t.new ≡ (serve_at t.old words.now i).state }
{
    let n = words.len() / 4;
    if n <= i {
        return LabelAnswer {
            answer: Err(Refusal::BadListLength),
            spent: 0,
        };
    }
    let at = 4 * i;
    labels::serve(t, words[at], words[at + 1], words[at + 2], words[at + 3])
}

// All label requests of a list of words in order; the replies two words each.
fn serve_all(t: &mut [u64], words: &[u64], replies: &mut [u64])
    requires { length replies.old ≡ 2 * (length words.now / 4) }
    ensures table { t.new ≡ final image_step t.old (asks words.now) }
    ensures replies { replies.new ≡ flat (trace image_step t.old (asks words.now)) }
{
    for i in 0..words.len() / 4 {
        let r = serve_at(t, words, i);
        let answer = r.answer;
        replies[2 * i] = requests::number(answer);
        replies[2 * i + 1] = r.spent;
    }
}

// A label set-up and then the requests of a list.
pub fn run(
    t: &mut [u64],
    clearances: &[u8],
    labels: &[u8],
    words: &[u64],
    replies: &mut [u64],
) -> Answer
    ensures answer { number_of result ≡ (machine_run t.old clearances.now labels.now words.now replies.old).answer }
    ensures table { t.new ≡ (machine_run t.old clearances.now labels.now words.now replies.old).table }
    ensures replies { replies.new ≡ (machine_run t.old clearances.now labels.now words.now replies.old).replies }
{
    if t.len() != WORDS {
        return Err(Refusal::WrongLength);
    }
    if words.len() % 4 != 0 {
        return Err(Refusal::BadListLength);
    }
    if replies.len() != 2 * (words.len() / 4) {
        return Err(Refusal::BadListLength);
    }
    let answer = image::label_setup(t, clearances, labels);
    if requests::number(answer) != 1 {
        return answer;
    }
    serve_all(t, words, replies);
    Ok(true)
}
