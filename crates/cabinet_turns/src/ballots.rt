// Telegrams that arrive, and ballots.
ghost use Rattle.std.specs.Prelude.{◌≡◌, not, ◌&&◌, [], ◌∷◌};
ghost use Rattle.model.specs.Questions.{ask, first_no};
ghost use Rattle.model.specs.Refusals.{numbered_by, reply_by, reply_of};
ghost use Rattle.model.specs.declared.Telegram.TheVariants.{Plain};
ghost use Rattle.protocol.specs.BallotCalls.{is_owner};
ghost use Rattle.protocol.specs.Rules.{is_contradicted};
ghost use Rattle.cabinet_turns.specs.Asked.{open_asked};
ghost use Rattle.cabinet_turns.specs.Ballots.{tally_for, report_after, with_ballots, may_open, has_put, opening_asked};
ghost use Rattle.cabinet_turns.specs.Ballots.{by_itself, opened_by, opened, says_accepted, same_word, accepts};
ghost use Rattle.cabinet_turns.specs.Ballots.{by_after, tally_after, answered_in, received_ballot, telegram_asked};
ghost use Rattle.cabinet_turns.specs.Ballots.{receive_asked, received_telegram, received, settled};

use crate::turns::answered;
use ballot_rules::{is_majority, new_tally, owner};
use cabinet_state::{BallotState, Cabinet};
use controller::{may_open, open, receive, receive_ballot, takes_ballot};
use controller_state::{is_contradicted, is_running};
use ground::insert;
use model::{
    BallotKind, BallotMessage, Message, Numbered, Outcome, Refusal, Telegram, ask, is_none,
};
use protocol::{Answer, BallotAnswer, Condition, Identity, Report, Tally};

// What it has counted for a ballot.
fn tally_for(b: u8, x: BallotState) -> Tally
    ensures { result ≡ tally_for b x }
{
    if b == x.opened {
        return x.tally;
    }
    new_tally()
}

// The promise given last, which is sent again.
fn report_after(old: Report, x: BallotAnswer) -> Report
    ensures { result ≡ report_after old x }
{
    if x.promise.given {
        return x.promise;
    }
    old
}

fn with_ballots(s: Cabinet, x: BallotState) -> Cabinet
    ensures { result ≡ with_ballots s x }
{
    let me = s.me;
    let controller = s.controller;
    let sent = s.sent;
    Cabinet {
        me,
        own: s.own,
        controller,
        sent,
        ballots: x,
    }
}

// 28: the ballot is its own, not opened before and not below its highest promise.
fn may_open_in(b: u8, s: Cabinet) -> bool
    ensures { result ≡ may_open b s }
{
    let x = s.ballots;
    may_open(s.me, b, x.acceptor, tally_for(b, x))
}

// Has it put a word, at a lock without arbiter?
#[tactic(auto, unfolding(crate::specs::Ballots::has_put))]
fn has_put(s: Cabinet) -> bool
    ensures { result ≡ has_put s }
{
    s.own && !is_none(s.controller.proposal)
}

// 28 comes before 29, as in the documents.
#[tactic(auto, unfolding(model::specs::Questions::first_no, model::specs::Questions::unless, crate::specs::Asked::open_asked))]
fn asked_to_open(order: u32, k: Condition, may: bool, put: bool) -> Result<(), Refusal>
    ensures { reply_of result ≡ first_no (open_asked order k may put) }
{
    ask(1 <= order, Refusal::OrderOpen)?;
    ask(is_running(k), Refusal::Condition)?;
    ask(may, Refusal::Ballot)?;
    ask(put, Refusal::BallotWord)
}

// To open a ballot.
pub fn open_question(b: u8, s: Cabinet) -> Result<(), Refusal>
    ensures { reply_of result ≡ first_no (opening_asked b s) }
{
    let c = s.controller;
    let k = c.condition;
    asked_to_open(s.me.order, k, may_open_in(b, s), has_put(s))
}

// The owner counts among those who have accepted its word, if it has.
fn by_itself(accepts: bool, id: u8, by: u32) -> u32
    ensures { result ≡ by_itself accepts id by }
{
    if accepts {
        return insert(by, id);
    }
    by
}

// A ballot opened takes the place of its own before: a cabinet keeps one.
fn opened_by(b: u8, s: Cabinet, x: BallotAnswer) -> Cabinet
    ensures { result ≡ opened_by b s x }
{
    let old = s.ballots;
    let acceptor = x.acceptor;
    let tally = x.tally;
    let report = report_after(old.report, x);
    with_ballots(
        s,
        BallotState {
            acceptor,
            report,
            opened: b,
            tally,
            accepted_by: by_itself(x.accepts, s.me.id, 0),
        },
    )
}

// It opens ballot b: "it promises to itself and sends all others an ask".
pub fn opened(b: u8, s: Cabinet) -> Cabinet
    ensures { result ≡ opened b s }
{
    let x = s.ballots;
    let answer = open(s.me, s.own, b, s.controller, x.acceptor, tally_for(b, x));
    opened_by(b, s, answer)
}

fn says_accepted(kind: BallotKind) -> bool
    ensures { result ≡ says_accepted kind }
{
    kind == BallotKind::Accepted
}

fn same_word(a: Outcome, b: Outcome) -> bool
    ensures { result ≡ same_word a b }
{
    a == b
}

// Does the telegram say that its sender has accepted the word of this cabinet's own ballot?
#[tactic(auto, unfolding(crate::specs::Ballots::accepts))]
fn accepts(m: BallotMessage, s: Cabinet) -> bool
    ensures { result ≡ accepts m s }
{
    let t = tally_for(m.ballot, s.ballots);
    says_accepted(m.kind)
        && same_word(m.word, t.word)
        && takes_ballot(s.me, s.own, m, s.controller, t)
}

fn is_owner(me: Identity, b: u8) -> bool
    ensures { result ≡ is_owner me b }
{
    owner(me.n, b) == me.id
}

fn accepts_own(me: Identity, b: u8, accepts: bool) -> bool
    ensures { result ≡ (accepts && is_owner me b) }
{
    accepts && is_owner(me, b)
}

// Who has accepted the word of its own ballot: more than n/2 settle it.
fn by_after(m: BallotMessage, s: Cabinet, x: BallotAnswer) -> u32
    ensures { result ≡ by_after m s x }
{
    if accepts(m, s) {
        return insert(s.ballots.accepted_by, m.from);
    }
    by_itself(
        accepts_own(s.me, m.ballot, x.accepts),
        s.me.id,
        s.ballots.accepted_by,
    )
}

// Of its own ballots the last alone is counted; what comes to an older one counts as lost.
fn tally_after(b: u8, old: BallotState, t: Tally) -> Tally
    ensures { result ≡ tally_after b old t }
{
    if b == old.opened {
        return t;
    }
    old.tally
}

// The cabinet after an answer in a ballot.
fn answered_in(m: BallotMessage, s: Cabinet, x: BallotAnswer) -> Cabinet
    ensures { result ≡ answered_in m s x }
{
    let old = s.ballots;
    let acceptor = x.acceptor;
    let report = report_after(old.report, x);
    let tally = tally_after(m.ballot, old, x.tally);
    with_ballots(
        s,
        BallotState {
            acceptor,
            report,
            opened: old.opened,
            tally,
            accepted_by: by_after(m, s, x),
        },
    )
}

// A telegram of a ballot: one that the rules pass over changes nothing.
fn received_ballot(m: BallotMessage, s: Cabinet) -> Cabinet
    ensures { result ≡ received_ballot m s }
{
    let x = s.ballots;
    let t = tally_for(m.ballot, x);
    let answer = receive_ballot(s.me, s.own, m, s.controller, x.acceptor, t);
    answered_in(m, s, answer)
}

// 24, where the controller refuses what came.
#[tactic(auto, unfolding(model::specs::Questions::first_no, model::specs::Questions::unless))]
fn contradiction(a: Answer) -> Result<(), Refusal>
    ensures { reply_of result ≡ first_no (ask 24 (not (is_contradicted a.reception)) ∷ []) }
{
    let reception = a.reception;
    ask(!is_contradicted(reception), Refusal::Contradiction)
}

// Of kinds 1 to 4 the controller is asked: 24 is its own refusal.
fn message_question(m: Message, s: Cabinet) -> Result<(), Refusal>
    ensures { reply_of result ≡ first_no (telegram_asked (Plain m) s) }
{
    contradiction(receive(s.me, m, s.controller))
}

// Kinds 5 to 8 have no vote set that could contradict one held.
fn telegram_question(t: Telegram, s: Cabinet) -> Result<(), Refusal>
    ensures { reply_of result ≡ first_no (telegram_asked t s) }
{
    match t {
        Telegram::Plain(m) => message_question(m, s),
        Telegram::OfBallot(_) => Ok(()),
    }
}

// To receive: what reading the telegram asks comes first.
pub fn receive_question<Q: Numbered>(read: Result<Telegram, Q>, s: Cabinet) -> Result<(), Q>
    ensures { reply_by Q.number result ≡ first_no (receive_asked (numbered_by Q.number read) s) }
{
    match telegram_question(read?, s) {
        Ok(()) => Ok(()),
        Err(q) => Err(Q::of(q)),
    }
}

// A message: one that the controller passes over changes nothing.
fn received_message(m: Message, s: Cabinet) -> Cabinet
    ensures { result ≡ received_telegram (Plain m) s }
{
    answered(s, receive(s.me, m, s.controller))
}

fn received_telegram(t: Telegram, s: Cabinet) -> Cabinet
    ensures { result ≡ received_telegram t s }
{
    match t {
        Telegram::Plain(m) => received_message(m, s),
        Telegram::OfBallot(m) => received_ballot(m, s),
    }
}

// What is refused changes nothing.
pub fn received<Q: Numbered>(read: Result<Telegram, Q>, s: Cabinet) -> Cabinet
    ensures { result ≡ received (numbered_by Q.number read) s }
{
    match read {
        Ok(t) => received_telegram(t, s),
        Err(_) => s,
    }
}

// The word that its own ballot has settled, as far as it knows.
pub(crate) fn settled(s: Cabinet) -> Outcome
    ensures { result ≡ settled s }
{
    if is_majority(s.me.n, s.ballots.accepted_by) {
        let t = s.ballots.tally;
        let word = t.word;
        return word;
    }
    Outcome::None
}
