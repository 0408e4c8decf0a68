// Ballots (document 02, U14): one is opened, a message of one arrives. Beside the controller stand what it has promised and accepted, and what it has
// counted for that ballot if it is its own. A call that does not fit changes nothing.
ghost use Rattle.std.specs.Prelude.{◌≡◌, ◌&&◌};
ghost use Rattle.protocol.specs.BallotCalls.{takes_part, may_open_alone, open_call, ballot_addressed, is_of_owner, ballot_arrives, ballot_comes, receive_ballot};

use crate::calls::valid_identity;
use ballot_rules::{
    accept_arrives, is_owner_in, open_ballot, owner, prepare_arrives, promise_arrives, unanswered,
};
use controller_state::is_running;
use ground::has;
use message_record::ballot_suits;
use model::{BallotKind, BallotMessage, Outcome, different_controllers, is_ballot, is_none};
use protocol::{Acceptor, BallotAnswer, Controller, Identity, Tally};

// A running controller of a lock that settles the word by ballots, in an order.
fn takes_part(me: Identity, own: bool, c: Controller) -> bool
    ensures { result ≡ takes_part me own c }
{
    if !valid_identity(me) {
        return false;
    }
    if own {
        return is_running(c.condition);
    }
    false
}

// Is the ballot its own, not opened before and not below its highest promise?
pub fn may_open(me: Identity, b: u8, a: Acceptor, t: Tally) -> bool
    ensures { result ≡ may_open_alone me b a t }
{
    if !is_ballot(b as u32) {
        return false;
    }
    if owner(me.n, b) != me.id {
        return false;
    }
    if has(t.from, me.id) {
        return false;
    }
    a.highest <= b
}

// It opens its ballot b, once it has put a word. `own`: does its lock settle the word by ballots.
pub fn open(me: Identity, own: bool, b: u8, c: Controller, a: Acceptor, t: Tally) -> BallotAnswer
    ensures { result ≡ open_call me own b c a t }
{
    if !takes_part(me, own, c) {
        return unanswered(a, t);
    }
    if !may_open(me, b, a, t) {
        return unanswered(a, t);
    }
    if is_none(c.proposal) {
        return unanswered(a, t);
    }
    open_ballot(me.n, b, me.id, c.proposal, a, t)
}

// Is a message of this order, n and f, meant for this controller, and from another?
fn addressed(me: Identity, m: BallotMessage) -> bool
    ensures { result ≡ ballot_addressed me m }
{
    if m.order != me.order {
        return false;
    }
    if m.n != me.n {
        return false;
    }
    if m.f != me.f {
        return false;
    }
    if m.to != me.id {
        return false;
    }
    different_controllers(me.n, m.from, me.id)
}

// Does the kind go so in ballot b: from its owner, or to it after it has opened the ballot?
fn of_owner(kind: BallotKind, n: u8, b: u8, from: u8, to: u8, t: Tally) -> bool
    ensures { result ≡ is_of_owner kind n b from to t }
{
    match kind {
        BallotKind::Prepare => owner(n, b) == from,
        BallotKind::Promise => is_owner_in(n, b, to, t.from, to),
        BallotKind::Accept => owner(n, b) == from,
        BallotKind::Accepted => is_owner_in(n, b, to, t.from, to),
    }
}

// The rule of its kind. One that has been accepted changes nothing where it comes in.
fn arrives(
    kind: BallotKind,
    n: u8,
    b: u8,
    from: u8,
    last: u8,
    word: Outcome,
    own: Outcome,
    a: Acceptor,
    t: Tally,
) -> BallotAnswer
    ensures { result ≡ ballot_arrives kind n b from last word own a t }
{
    match kind {
        BallotKind::Prepare => prepare_arrives(b, a, t),
        BallotKind::Promise => promise_arrives(n, b, from, last, word, own, a, t),
        BallotKind::Accept => accept_arrives(b, word, a, t),
        BallotKind::Accepted => unanswered(a, t),
    }
}

// May the message come, and so? What reading would have refused may not.
fn comes(me: Identity, m: BallotMessage, t: Tally) -> bool
    ensures { result ≡ ballot_comes me m t }
{
    if !addressed(me, m) {
        return false;
    }
    if !is_ballot(m.ballot as u32) {
        return false;
    }
    if !ballot_suits(m) {
        return false;
    }
    of_owner(m.kind, me.n, m.ballot, m.from, me.id, t)
}

// Is a message of a ballot meant for one that takes part, and may it come so?
pub fn takes_ballot(me: Identity, own: bool, m: BallotMessage, c: Controller, t: Tally) -> bool
    ensures { result ≡ (takes_part me own c && ballot_comes me m t) }
{
    if !takes_part(me, own, c) {
        return false;
    }
    comes(me, m, t)
}

// A message of a ballot arrives. `own`: does its lock settle the word by ballots.
pub fn receive_ballot(
    me: Identity,
    own: bool,
    m: BallotMessage,
    c: Controller,
    a: Acceptor,
    t: Tally,
) -> BallotAnswer
    ensures { result ≡ receive_ballot me own m c a t }
{
    if !takes_ballot(me, own, m, c, t) {
        return unanswered(a, t);
    }
    arrives(
        m.kind, me.n, m.ballot, m.from, m.last, m.word, c.proposal, a, t,
    )
}
