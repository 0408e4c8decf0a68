// The telegrams that a cabinet has sent in its order, one by one.
ghost use Rattle.std.specs.Prelude.{◌≡◌, not, ◌||◌, eqb, length, slice_get};
ghost use Rattle.protocol.specs.Sequence.{messages_of};
ghost use Rattle.protocol.specs.BallotCalls.{is_owner};
ghost use Rattle.cabinet_turns.specs.Telegrams.{sends_of, promise_message};
ghost use Rattle.cabinet_turns.specs.Telegrams.{promise_sent, acceptance_message, acceptance_sent, asks_sent};
ghost use Rattle.cabinet_turns.specs.Telegrams.{puts_sent, ballots_sent, telegrams_sent};

use ballot_rules::owner;
use cabinet_state::{BallotState, Cabinet, wide};
use controller::{ballot_to, count_others, nth_message, nth_of_one, nth_to_others};
use ground::size;
use model::{BallotKind, BallotMessage, Outcome, Telegram, is_none};
use protocol::{Identity, Sends, Sent};
use records::low_byte;

// What was sent of kinds 1 to 4, as one answer would send it.
fn sends_of(s: Sent) -> Sends
    ensures { result ≡ sends_of s }
{
    Sends {
        vote: Some(s.vote),
        ack: Some(s.ack),
        help: Some(s.help),
        helped: Some(s.helped),
    }
}

// How many of kinds 1 to 4.
fn count_plain(me: Identity, s: Sent) -> u32
    ensures { result ≡ length (messages_of me (sends_of s)) }
{
    wide(size(s.vote.to, me.n))
        + wide(size(s.ack.to, me.n))
        + wide(size(s.help.to, me.n))
        + wide(size(s.helped.to, me.n))
}

// Is there no promise to send: none was given, or the ballot is its own?
fn no_promise_sent(me: Identity, x: BallotState) -> bool
    ensures { result ≡ (not x.report.given || is_owner me x.acceptor.promised) }
{
    !x.report.given || owner(me.n, x.acceptor.promised) == me.id
}

fn promise_message(me: Identity, x: BallotState) -> BallotMessage
    ensures { result ≡ promise_message me x }
{
    let b = x.acceptor.promised;
    ballot_to(
        me,
        BallotKind::Promise,
        b,
        x.report.last,
        x.report.word,
        owner(me.n, b),
    )
}

fn nth_promise(me: Identity, x: BallotState, k: u8) -> Option<BallotMessage>
    ensures { result ≡ slice_get (promise_sent me x) k }
{
    if no_promise_sent(me, x) {
        return None;
    }
    nth_of_one(promise_message(me, x), k)
}

fn count_promise(me: Identity, x: BallotState) -> u8
    ensures { result ≡ length (promise_sent me x) }
{
    if no_promise_sent(me, x) {
        return 0;
    }
    1
}

// Is there no acceptance to send: none was made, or the ballot is its own?
fn no_acceptance_sent(me: Identity, last: u8) -> bool
    ensures { result ≡ (eqb last 0 || is_owner me last) }
{
    last == 0 || owner(me.n, last) == me.id
}

fn acceptance_message(me: Identity, x: BallotState) -> BallotMessage
    ensures { result ≡ acceptance_message me x }
{
    let b = x.acceptor.last;
    ballot_to(
        me,
        BallotKind::Accepted,
        b,
        0,
        x.acceptor.word,
        owner(me.n, b),
    )
}

fn nth_acceptance(me: Identity, x: BallotState, k: u8) -> Option<BallotMessage>
    ensures { result ≡ slice_get (acceptance_sent me x) k }
{
    if no_acceptance_sent(me, x.acceptor.last) {
        return None;
    }
    nth_of_one(acceptance_message(me, x), k)
}

fn count_acceptance(me: Identity, x: BallotState) -> u8
    ensures { result ≡ length (acceptance_sent me x) }
{
    if no_acceptance_sent(me, x.acceptor.last) {
        return 0;
    }
    1
}

fn nth_ask(me: Identity, x: BallotState, k: u8) -> Option<BallotMessage>
    ensures { result ≡ slice_get (asks_sent me x) k }
{
    if x.opened == 0 {
        return None;
    }
    nth_to_others(me, BallotKind::Prepare, x.opened, Outcome::None, k)
}

fn count_asks(me: Identity, x: BallotState) -> u8
    ensures { result ≡ length (asks_sent me x) }
{
    if x.opened == 0 {
        return 0;
    }
    count_others(me)
}

fn nth_put(me: Identity, x: BallotState, k: u8) -> Option<BallotMessage>
    ensures { result ≡ slice_get (puts_sent me x) k }
{
    if is_none(x.tally.word) {
        return None;
    }
    nth_to_others(me, BallotKind::Accept, x.opened, x.tally.word, k)
}

fn nth_of_ballots(me: Identity, x: BallotState, k: u8) -> Option<BallotMessage>
    ensures { result ≡ slice_get (ballots_sent me x) k }
{
    let promises = count_promise(me, x);
    if k < promises {
        return nth_promise(me, x, k);
    }
    let past_promise = k - promises;
    let acceptances = count_acceptance(me, x);
    if past_promise < acceptances {
        return nth_acceptance(me, x, past_promise);
    }
    let past_acceptance = past_promise - acceptances;
    let asks = count_asks(me, x);
    if past_acceptance < asks {
        return nth_ask(me, x, past_acceptance);
    }
    nth_put(me, x, past_acceptance - asks)
}

// The telegram that has k before it, of all that the cabinet has sent in its order.
pub fn nth_telegram(s: Cabinet, k: u8) -> Option<Telegram>
    ensures { result ≡ slice_get (telegrams_sent s) k }
{
    let plain = count_plain(s.me, s.sent);
    let at = wide(k);
    if at < plain {
        let message = nth_message(s.me, sends_of(s.sent), k)?;
        return Some(Telegram::Plain(message));
    }
    let of_ballot = nth_of_ballots(s.me, s.ballots, low_byte(at - plain))?;
    Some(Telegram::OfBallot(of_ballot))
}
