// Ballots (document 02, U14): what the controller under trial has promised, accepted and counted, and what each command asks of it there.
use crate::command::{byte, is_ballot_message, outcome_at};
use ballot_rules::{new_acceptor, new_tally, unanswered};
use controller::{open, receive_ballot};
use controller_state::lower;
use model::{BallotKind, BallotMessage};
use protocol::{Acceptor, BALLOTS, BallotAnswer, Controller, Identity, Tally};
use records::number4;
use votes::empty_set;

// Its part in the ballots of an order: does its lock settle the word by them (own), what has it promised and accepted, and what has it counted
// for each ballot that is its own.
#[derive(Clone, Copy)]
pub(crate) struct Part {
    pub own: bool,
    pub acceptor: Acceptor,
    pub tallies: [Tally; BALLOTS],
}

// What a command did in its ballot. One that is not of a ballot did nothing, in whichever.
#[derive(Clone, Copy)]
pub(crate) struct Call {
    pub own: bool,
    pub ballot: u8,
    pub taken: bool,
    pub answer: BallotAnswer,
}

pub(crate) fn new_part(own: bool) -> Part {
    Part {
        own,
        acceptor: new_acceptor(),
        tallies: [new_tally(); BALLOTS],
    }
}

// What is left of it when a command comes: a new controller, a new order and a stop forget ballots.
pub(crate) fn part_kept(s: &[u8], p: Part) -> Part {
    match byte(s, 0) {
        0 => new_part(byte(s, 8) == 1),
        1 => new_part(p.own),
        6 => new_part(p.own),
        _ => p,
    }
}

fn tally_of(p: Part, b: u8) -> Tally {
    let at = lower(b) as usize;
    if BALLOTS <= at {
        return new_tally();
    }
    let tallies = p.tallies;
    tallies[at]
}

fn placed(tallies: [Tally; BALLOTS], b: u8, t: Tally) -> [Tally; BALLOTS] {
    let at = lower(b) as usize;
    let mut next = tallies;
    if BALLOTS <= at {
        return next;
    }
    next[at] = t;
    next
}

// Its part after a call.
pub(crate) fn part_after(p: Part, call: Call) -> Part {
    let answer = call.answer;
    let acceptor = answer.acceptor;
    let tally = answer.tally;
    let tallies = p.tallies;
    Part {
        own: p.own,
        acceptor,
        tallies: placed(tallies, call.ballot, tally),
    }
}

fn kind_at(s: &[u8]) -> BallotKind {
    match byte(s, 1) {
        5 => BallotKind::Prepare,
        6 => BallotKind::Promise,
        7 => BallotKind::Accept,
        _ => BallotKind::Accepted,
    }
}

fn message_at(s: &[u8]) -> BallotMessage {
    BallotMessage {
        kind: kind_at(s),
        n: byte(s, 2),
        f: byte(s, 3),
        from: byte(s, 4),
        to: byte(s, 5),
        order: number4(s, 8),
        votes: empty_set(),
        ballot: byte(s, 20),
        last: byte(s, 21),
        word: outcome_at(s, 22),
    }
}

// The ballot of a command, if it has one.
fn ballot_of(s: &[u8]) -> u8 {
    if byte(s, 0) == 10 {
        return byte(s, 1);
    }
    byte(s, 20)
}

fn received(
    s: &[u8],
    me: Identity,
    own: bool,
    c: Controller,
    a: Acceptor,
    t: Tally,
) -> BallotAnswer {
    if is_ballot_message(s) {
        return receive_ballot(me, own, message_at(s), c, a, t);
    }
    unanswered(a, t)
}

fn answer_in(
    s: &[u8],
    me: Identity,
    own: bool,
    c: Controller,
    a: Acceptor,
    t: Tally,
) -> BallotAnswer {
    match byte(s, 0) {
        3 => received(s, me, own, c, a, t),
        10 => open(me, own, byte(s, 1), c, a, t),
        _ => unanswered(a, t),
    }
}

// Was a promise given or counted, or a word accepted?
fn is_taken(counted: u32, x: BallotAnswer) -> bool {
    if x.promise.given {
        return true;
    }
    if x.accepts {
        return true;
    }
    let tally = x.tally;
    tally.from != counted
}

// What a command does in its ballot.
pub(crate) fn ballot_call(s: &[u8], me: Identity, c: Controller, p: Part) -> Call {
    let ballot = ballot_of(s);
    let acceptor = p.acceptor;
    let tally = tally_of(p, ballot);
    let answer = answer_in(s, me, p.own, c, acceptor, tally);
    Call {
        own: p.own,
        ballot,
        taken: is_taken(tally.from, answer),
        answer,
    }
}
