// The second timeout. What comes of it is found first, then each part of the controller from that: a rule that joins whole controllers would copy them.
ghost use Rattle.std.specs.Prelude.{◌≡◌};
ghost use Rattle.protocol.specs.Rules.{second_timeout};
ghost use Rattle.controller_rules.specs.Conclusions.{conclusion_of, condition_after, position_after, helped_after, word_after, calls_after, waits_after};

use crate::deciding::decides;
use crate::waiting::{ack_tally, counted_word};
use controller_state::{bump, helps, in_phase, landing, noting, or_else, outcome_in};
use ground::insert;
use model::{Kind, Outcome, is_none, recipients, word_of};
use protocol::{
    Answer, Cnt, CntHelp, Condition, Controller, Gate, HelpAnswers, HelpState, Outgoing, Reception,
};
use votes::{VoteSet, agreed_or, empty_set, join, tallied_with, tallied_word};

// What a second timeout comes to: the outcome, or else a word put, or else it waits.
#[derive(Clone, Copy)]
pub(crate) enum Conclusion {
    Decides,
    Proposes,
    Waits,
}

// In document 01's sequence: the outcome; "Otherwise, if at least one is held", a word; "Otherwise it waits".
fn concluded(n: u8, f: u8, i: u8, c: Controller) -> Conclusion
    ensures { result ≡ conclusion_of n f i c }
{
    if decides(n, f, i, c) {
        return Conclusion::Decides;
    }
    if 0 < c.acks.cnt.0 {
        return Conclusion::Proposes;
    }
    Conclusion::Waits
}

// The condition: an outcome is noted.
fn condition_after(k: Conclusion, next: Condition, word: Outcome) -> Condition
    ensures { result ≡ condition_after k next word }
{
    match k {
        Conclusion::Decides => noting(next, word),
        Conclusion::Proposes => next,
        Conclusion::Waits => next,
    }
}

// The gate's position: an outcome may move it.
fn position_after(k: Conclusion, next: Condition, word: Outcome, gate: Gate) -> u32
    ensures { result ≡ position_after k next word gate }
{
    match k {
        Conclusion::Decides => landing(next, word, gate),
        Conclusion::Proposes => gate.position,
        Conclusion::Waits => gate.position,
    }
}

// The help answers: one that waits counts its own help vote set.
fn helped_after(k: Conclusion, i: u8, s: VoteSet, old: HelpAnswers) -> HelpAnswers
    ensures { result ≡ helped_after k i s old }
{
    match k {
        Conclusion::Decides => old,
        Conclusion::Proposes => old,
        Conclusion::Waits => {
            let held = old.votes;
            HelpAnswers {
                votes: agreed_or(held, join(held, s)),
                from: insert(old.from, i),
                cnt_help: CntHelp(bump(old.cnt_help.0)),
            }
        }
    }
}

// The word put, if any: of one that waits, if its own help vote set completes the count.
fn word_after(k: Conclusion, n: u8, f: u8, word: Outcome, cnt: Cnt, helped: HelpAnswers) -> Outcome
    ensures { result ≡ word_after k n f word cnt helped }
{
    match k {
        Conclusion::Decides => Outcome::None,
        Conclusion::Proposes => word,
        Conclusion::Waits => counted_word(n, f, cnt, helped),
    }
}

// The help calls: one that waits calls for help.
fn calls_after(k: Conclusion, n: u8, f: u8, i: u8) -> Option<Outgoing>
    ensures { result ≡ calls_after k n f i }
{
    match k {
        Conclusion::Decides => None,
        Conclusion::Proposes => None,
        Conclusion::Waits => Some(Outgoing {
            to: recipients(n, f, Kind::Help, i),
            votes: empty_set(),
        }),
    }
}

// Does it still wait? Not once it has put a word.
fn waits_after(k: Conclusion, word: Outcome) -> bool
    ensures { result ≡ waits_after k word }
{
    match k {
        Conclusion::Decides => false,
        Conclusion::Proposes => false,
        Conclusion::Waits => is_none(word),
    }
}

// To stage 3 with the help vote set frozen, which goes to those whose calls were kept and is ready from now on for those who call.
pub fn second_timeout(n: u8, f: u8, i: u8, c: Controller) -> Answer
    ensures { result ≡ second_timeout n f i c }
{
    let gate = c.gate;
    let callers = c.help.callers;
    let acks = ack_tally(n, c);
    let votes = tallied_with(c.votes, acks);
    let word = word_of(tallied_word(acks));
    let k = concluded(n, f, i, c);
    let next = in_phase(3, outcome_in(c.condition));
    let helped = helped_after(k, i, votes, c.helped);
    let put = word_after(k, n, f, word, c.acks.cnt, helped);
    let position = position_after(k, next, word, gate);
    let help = HelpState {
        waiting: waits_after(k, put),
        votes,
        callers,
    };
    let sends = helps(
        calls_after(k, n, f, i),
        Some(Outgoing { to: callers, votes }),
    );
    let proposal = or_else(put, c.proposal);
    let controller = Controller {
        condition: condition_after(k, next, word),
        helped,
        help,
        proposal,
        gate: Gate { position, ..gate },
        ..c
    };
    Answer {
        reception: Reception::Taken,
        controller,
        sends,
        proposal: put,
    }
}
