// What a controller promises and accepts: a prepare or an accept (document 02: an ask, a put) arrives.
ghost use Rattle.std.specs.Prelude.{◌≡◌, not, ◌&&◌, eqb, leb};
ghost use Rattle.protocol.specs.BallotRules.{no_promise, unanswered, promising, reporting, give_promise, prepare_arrives, accepting, accept, accept_arrives};

use model::Outcome;
use protocol::{Acceptor, BallotAnswer, Report, Tally};

pub fn no_promise() -> Report
    ensures { result ≡ no_promise }
{
    Report {
        given: false,
        last: 0,
        word: Outcome::None,
    }
}

// Nothing is promised, put or accepted.
pub fn unanswered(a: Acceptor, t: Tally) -> BallotAnswer
    ensures { result ≡ unanswered a t }
{
    BallotAnswer {
        acceptor: a,
        tally: t,
        promise: no_promise(),
        proposes: false,
        accepts: false,
    }
}

// Is the ballot not below the highest promise, and not the one that was answered last?
fn answers(b: u8, highest: u8, answered: u8) -> bool
    ensures { result ≡ (leb highest b && not (eqb answered b)) }
{
    if highest <= b {
        return answered != b;
    }
    false
}

// "Both raise its highest promise to that ballot": a promise, and an acceptance.
pub(crate) fn promising(b: u8, a: Acceptor) -> Acceptor
    ensures { result ≡ promising b a }
{
    Acceptor {
        highest: b,
        promised: b,
        ..a
    }
}

// A promise reports what its giver has last accepted.
pub(crate) fn reporting(a: Acceptor) -> Report
    ensures { result ≡ reporting a }
{
    let word = a.word;
    Report {
        given: true,
        last: a.last,
        word,
    }
}

// A promise goes with what was accepted before, so that the owner puts no other word past it.
fn give_promise(b: u8, a: Acceptor, t: Tally) -> BallotAnswer
    ensures { result ≡ give_promise b a t }
{
    BallotAnswer {
        acceptor: promising(b, a),
        tally: t,
        promise: reporting(a),
        proposes: false,
        accepts: false,
    }
}

// A prepare of ballot b arrives.
pub fn prepare_arrives(b: u8, a: Acceptor, t: Tally) -> BallotAnswer
    ensures { result ≡ prepare_arrives b a t }
{
    if answers(b, a.highest, a.promised) {
        return give_promise(b, a, t);
    }
    unanswered(a, t)
}

// It raises the highest promise too: a lower ballot is not answered after it.
fn accepting(b: u8, w: Outcome, a: Acceptor) -> Acceptor
    ensures { result ≡ accepting b w a }
{
    Acceptor {
        highest: b,
        last: b,
        word: w,
        ..a
    }
}

// ".. a put by taking it and a taken to the owner."
fn accept(b: u8, w: Outcome, a: Acceptor, t: Tally) -> BallotAnswer
    ensures { result ≡ accept b w a t }
{
    BallotAnswer {
        acceptor: accepting(b, w, a),
        tally: t,
        promise: no_promise(),
        proposes: false,
        accepts: true,
    }
}

// An accept of ballot b arrives, with its word.
pub fn accept_arrives(b: u8, w: Outcome, a: Acceptor, t: Tally) -> BallotAnswer
    ensures { result ≡ accept_arrives b w a t }
{
    if answers(b, a.highest, a.last) {
        return accept(b, w, a, t);
    }
    unanswered(a, t)
}
