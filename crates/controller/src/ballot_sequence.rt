// The messages of an answer in a ballot, one by one in the sequence in which they go out: a prepare to all others or a promise to the owner, an accept to
// all others, an accepted to the owner.
ghost use Rattle.std.specs.Prelude.{◌≡◌, [], ◌∷◌, length, slice_get};
ghost use Rattle.protocol.specs.Sequence.{members};
ghost use Rattle.protocol.specs.BallotCalls.{others, ballot_to, ballot_to_others, NthBallotMessageOf};
ghost use Rattle.controller.specs.BallotParts.{promised, proposed, accepted_by};

use crate::sequence::nth_member;
use ballot_rules::owner;
use ground::{remove, size, up_to};
use model::{BallotKind, BallotMessage, Outcome};
use protocol::{BallotAnswer, Identity};
use votes::empty_set;

// All of 1 to n but i.
fn others(n: u8, i: u8) -> u32
    ensures { result ≡ others n i }
{
    remove(up_to(n), i)
}

// A message of ballot b to one of the others.
pub fn ballot_to(
    me: Identity,
    kind: BallotKind,
    b: u8,
    last: u8,
    word: Outcome,
    to: u8,
) -> BallotMessage
    ensures { result ≡ ballot_to me kind b last word to }
{
    BallotMessage {
        kind,
        n: me.n,
        f: me.f,
        from: me.id,
        to,
        order: me.order,
        votes: empty_set(),
        ballot: b,
        last,
        word,
    }
}

// How many others there are.
pub fn count_others(me: Identity) -> u8
    ensures { result ≡ length (members me.n (others me.n me.id)) }
{
    size(others(me.n, me.id), me.n)
}

// The message to all others that has k before it.
pub fn nth_to_others(
    me: Identity,
    kind: BallotKind,
    b: u8,
    word: Outcome,
    k: u8,
) -> Option<BallotMessage>
    ensures { result ≡ slice_get (ballot_to_others me kind b word) k }
{
    if count_others(me) <= k {
        return None;
    }
    let to = nth_member(me.n, others(me.n, me.id), k);
    Some(ballot_to(me, kind, b, 0, word, to))
}

// One message alone.
pub fn nth_of_one(m: BallotMessage, k: u8) -> Option<BallotMessage>
    ensures { result ≡ slice_get (m ∷ []) k }
{
    if k == 0 {
        return Some(m);
    }
    None
}

// Where a promise is given: prepares, if the ballot is its own, or the promise.
fn count_promised(me: Identity, b: u8, x: BallotAnswer) -> u8
    ensures { result ≡ length (promised me b x) }
{
    if x.promise.given {
        if owner(me.n, b) == me.id {
            return count_others(me);
        }
        return 1;
    }
    0
}

fn nth_promised(me: Identity, b: u8, x: BallotAnswer, k: u8) -> Option<BallotMessage>
    ensures { result ≡ slice_get (promised me b x) k }
{
    if x.promise.given {
        let to = owner(me.n, b);
        if to == me.id {
            return nth_to_others(me, BallotKind::Prepare, b, Outcome::None, k);
        }
        let m = ballot_to(
            me,
            BallotKind::Promise,
            b,
            x.promise.last,
            x.promise.word,
            to,
        );
        return nth_of_one(m, k);
    }
    None
}

// Where a word is put: accepts.
fn count_proposed(me: Identity, b: u8, x: BallotAnswer) -> u8
    ensures { result ≡ length (proposed me b x) }
{
    if x.proposes {
        return count_others(me);
    }
    0
}

fn nth_proposed(me: Identity, b: u8, x: BallotAnswer, k: u8) -> Option<BallotMessage>
    ensures { result ≡ slice_get (proposed me b x) k }
{
    if x.proposes {
        return nth_to_others(me, BallotKind::Accept, b, x.tally.word, k);
    }
    None
}

// Where another's word is accepted: the owner is told.
fn nth_accepted(me: Identity, b: u8, x: BallotAnswer, k: u8) -> Option<BallotMessage>
    ensures { result ≡ slice_get (accepted_by me b x) k }
{
    if x.accepts {
        let to = owner(me.n, b);
        if to == me.id {
            return None;
        }
        let m = ballot_to(me, BallotKind::Accepted, b, 0, x.acceptor.word, to);
        return nth_of_one(m, k);
    }
    None
}

// The message of an answer in ballot b that has k before it, so that a cabinet can send them one by one: k = 0, 1, 2 and so on, until all are sent.
pub fn nth_ballot_message(me: Identity, b: u8, x: BallotAnswer, k: u8) -> Option<BallotMessage>
    ensures { NthBallotMessageOf me b x k result }
{
    let promised = count_promised(me, b, x);
    if k < promised {
        return nth_promised(me, b, x, k);
    }
    let proposed = count_proposed(me, b, x);
    let after_promised = k - promised;
    if after_promised < proposed {
        return nth_proposed(me, b, x, after_promised);
    }
    nth_accepted(me, b, x, after_promised - proposed)
}
