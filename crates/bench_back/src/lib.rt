// One act on a bench by value that remembers (document 02, U11): an event, or a step back. Who calls it keeps the benches before the remembered events, hands
// in the newest of them, and is told what becomes of them.
#![tactic(auto)]

ghost use Rattle.std.specs.Prelude.{◌≡◌, List};
ghost use Rattle.model.specs.declared.Act.TheVariants.{Play, Back};
ghost use Rattle.steps_back.specs.Memory.{can_be_undone};
ghost use Rattle.bench_back.specs.Recalls.{remembering_of, recall_by, acted, Recalls};

use bench_step::step;
use model::{Act, Event};
use protocol::Bench;
use steps_back::back_question;

// What is remembered after an act: what was before; the bench before the act too, and no more benches than `steps_back::MOST_REMEMBERED`; all but the newest; nothing.
#[derive(Clone, Copy)]
pub enum Recall {
    Same,
    More,
    Fewer,
    Nothing,
}

// What an act returns: the answer, 0 or the first question answered "no"; the bench after it; what is remembered.
// stays (no plainer): a refused act too leaves a bench and says what is remembered, and callers take both alike, whatever the answer.
#[derive(Clone, Copy)]
pub struct Acted {
    pub answer: u8,
    pub bench: Bench,
    pub recall: Recall,
}

fn can_be_undone(e: Event) -> bool
    ensures { result ≡ can_be_undone e }
{
    !matches!(e, Event::Lock { .. })
}

// What becomes of what is remembered at an accepted event.
fn recall_by(e: Event) -> Recall
    ensures { result ≡ recall_by (Play e) }
{
    if can_be_undone(e) {
        return Recall::More;
    }
    Recall::Nothing
}

fn play(b: Bench, e: Event) -> Acted
    ensures { (past : List Bench) → result ≡ acted (record { bench = b; past = past }) (Play e) }
{
    match step(b, e) {
        Ok(bench) => Acted {
            answer: 0,
            bench,
            recall: recall_by(e),
        },
        Err(q) => Acted {
            answer: u8::from(q),
            bench: b,
            recall: Recall::Same,
        },
    }
}

fn back(b: Bench, remembers: bool, newest: Bench) -> Acted
    ensures { (older : List Bench) → result ≡ acted (remembering_of b remembers newest older) Back }
{
    match back_question(b.shared.locked, remembers) {
        Ok(()) => Acted {
            answer: 0,
            bench: newest,
            recall: Recall::Fewer,
        },
        Err(q) => Acted {
            answer: u8::from(q),
            bench: b,
            recall: Recall::Same,
        },
    }
}

// Does the bench remember an event, and then the bench before the newest; what older ones are remembered makes no difference.
pub fn act(b: Bench, remembers: bool, newest: Bench, act: Act) -> Acted
    ensures { (older : List Bench) → result ≡ acted (remembering_of b remembers newest older) act }
{
    match act {
        Act::Play(e) => play(b, e),
        Act::Back => back(b, remembers, newest),
    }
}

// What is remembered after an act is what `Recall` says.
pub fn recalls()
    ensures { Recalls }
{}
