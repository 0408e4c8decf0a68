// The commands: what each asks of the controller, by its first byte.
use controller::{decide, receive, renew, restore, save, stop, timeout, vote};
use controller_state::{becomes, fresh, passed_over};
use model::{Checkpoint, Kind, Message, Outcome};
use protocol::{Answer, Controller, Identity};
use records::{byte_after, number4};
use votes::VoteSet;

pub(crate) fn byte(s: &[u8], i: usize) -> u8 {
    byte_after(s, i, 0)
}

// Is this a message? It has a kind from 1 to 8 and, if that is one of ballots, a word.
fn is_message(s: &[u8]) -> bool {
    let kind = byte(s, 1);
    if 5 <= kind {
        return kind <= 8 && byte(s, 22) <= 2;
    }
    1 <= kind
}

// Is this a command? A lock settles the word by ballots (1) or does not (0).
pub(crate) fn is_command(s: &[u8]) -> bool {
    let op = byte(s, 0);
    if op == 0 {
        return byte(s, 8) <= 1;
    }
    if op == 3 {
        return is_message(s);
    }
    op <= 8 || op == 10
}

// Does the command, which is a message, belong to a ballot?
pub(crate) fn is_ballot_message(s: &[u8]) -> bool {
    5 <= byte(s, 1)
}

fn kind_at(s: &[u8]) -> Kind {
    match byte(s, 1) {
        1 => Kind::Vote,
        2 => Kind::Ack,
        3 => Kind::Help,
        _ => Kind::Helped,
    }
}

fn message_at(s: &[u8]) -> Message {
    let votes = VoteSet {
        known: number4(s, 12),
        willing: number4(s, 16),
    };
    Message {
        kind: kind_at(s),
        n: byte(s, 2),
        f: byte(s, 3),
        from: byte(s, 4),
        to: byte(s, 5),
        order: number4(s, 8),
        votes,
    }
}

// None, Stay or Move in byte i.
pub(crate) fn outcome_at(s: &[u8], i: usize) -> Outcome {
    match byte(s, i) {
        1 => Outcome::Stay,
        2 => Outcome::Move,
        _ => Outcome::None,
    }
}

fn checkpoint_at(s: &[u8], me: Identity) -> Checkpoint {
    Checkpoint {
        id: me.id,
        n: me.n,
        f: me.f,
        outcome: outcome_at(s, 1),
        order: number4(s, 4),
        position: number4(s, 8),
    }
}

// Who the controller is once a command has come: a new one, one of a new order, or the same.
pub(crate) fn identity_after(s: &[u8], me: Identity) -> Identity {
    match byte(s, 0) {
        0 => Identity {
            n: byte(s, 1),
            f: byte(s, 2),
            id: byte(s, 3),
            order: number4(s, 4),
        },
        1 => Identity {
            order: number4(s, 4),
            ..me
        },
        _ => me,
    }
}

// The checkpoint that a command asks for.
pub(crate) fn saved_by(s: &[u8], me: Identity, c: Controller) -> Option<Checkpoint> {
    if byte(s, 0) == 7 {
        return save(me, c);
    }
    None
}

// A checkpoint is made or, of a stopped controller, none.
fn saving(me: Identity, c: Controller) -> Answer {
    if save(me, c).is_some() {
        return becomes(c);
    }
    passed_over(c)
}

// What ends, saves and restores it.
fn later_answer(s: &[u8], me: Identity, c: Controller) -> Answer {
    match byte(s, 0) {
        5 => decide(byte(s, 1) == 1, c),
        6 => stop(c),
        7 => saving(me, c),
        _ => restore(me, checkpoint_at(s, me), c),
    }
}

// A call of a ballot is taken or passed over; all else that it changes stands beside the controller.
fn called(taken: bool, c: Controller) -> Answer {
    if taken {
        return becomes(c);
    }
    passed_over(c)
}

fn received(s: &[u8], me: Identity, c: Controller, taken: bool) -> Answer {
    if is_ballot_message(s) {
        return called(taken, c);
    }
    receive(me, message_at(s), c)
}

// What the controller answers to a command. `taken`: does it take it, if it is one of a ballot.
pub(crate) fn answer_to(s: &[u8], me: Identity, c: Controller, taken: bool) -> Answer {
    match byte(s, 0) {
        0 => becomes(fresh()),
        1 => becomes(renew(c)),
        2 => vote(me, byte(s, 1) == 1, number4(s, 4), c),
        3 => received(s, me, c, taken),
        4 => timeout(me, c),
        10 => called(taken, c),
        _ => later_answer(s, me, c),
    }
}
