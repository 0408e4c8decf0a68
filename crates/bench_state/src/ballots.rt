// The questions of the events of ballots (document 02, U14), in their sequence. Each function refuses with the first "no", and asks nothing after it.
#![tactic(auto, unfolding(model::specs::Questions::first_no, model::specs::Questions::unless))]

ghost use Rattle.std.specs.Prelude.{◌≡◌, ◌&&◌};
ghost use Rattle.model.specs.declared.BallotEvent.TheVariants.{Open, Carry};
ghost use Rattle.protocol.specs.BallotSteps.{was_sent_in};
ghost use Rattle.model.specs.Refusals.{reply_of};
ghost use Rattle.protocol.specs.Questions.{first_no};
ghost use Rattle.bench_state.specs.BallotQuestions.{ballot_asked};

use crate::tests::may_settle;
use ballot_rules::{may_open_ballot, was_sent_in};
use controller_state::is_running;
use model::{
    BallotEvent, BallotKind, Outcome, Refusal, ask, different_controllers, is_ballot, is_controller,
};
use protocol::{Acceptor, BallotRow, Condition, Shared};

// 17: the lock settles the word by ballots, and the message was sent.
fn was_sent(
    own: bool,
    kind: BallotKind,
    n: u8,
    ballot: u8,
    from: u8,
    to: u8,
    row: BallotRow,
) -> bool
    ensures { result ≡ (own && was_sent_in kind n ballot from to row) }
{
    own && was_sent_in(kind, n, ballot, from, to, row)
}

// A ballot to open, by a controller that has put `word`.
pub fn open_ballot_question(
    m: Shared,
    k: Condition,
    word: Outcome,
    a: Acceptor,
    row: BallotRow,
    id: u8,
    ballot: u32,
) -> Result<(), Refusal>
    ensures { reply_of result ≡ first_no (ballot_asked m k word a row (Open id ballot)) }
{
    ask(m.locked, Refusal::LockSetUp)?;
    ask(is_controller(m.n, id), Refusal::Controllers)?;
    ask(1 <= m.order, Refusal::OrderOpen)?;
    ask(is_running(k), Refusal::Condition)?;
    ask(may_open_ballot(m.n, id, ballot, a, row), Refusal::Ballot)?;
    ask(may_settle(m.own, word), Refusal::BallotWord)
}

// A message of a ballot that is delivered.
pub fn carry_question(
    m: Shared,
    k: Condition,
    row: BallotRow,
    from: u8,
    to: u8,
    kind: BallotKind,
    ballot: u32,
) -> Result<(), Refusal>
    ensures { (word : Outcome) (a : Acceptor) → reply_of result ≡ first_no (ballot_asked m k word a row (Carry from to kind ballot)) }
{
    ask(m.locked, Refusal::LockSetUp)?;
    ask(different_controllers(m.n, from, to), Refusal::Controllers)?;
    ask(1 <= m.order, Refusal::OrderOpen)?;
    ask(is_running(k), Refusal::Condition)?;
    ask(is_ballot(ballot), Refusal::Ballot)?;
    ask(
        was_sent(m.own, kind, m.n, ballot as u8, from, to, row),
        Refusal::Sent,
    )
}

// Of either event of ballots.
pub fn ballot_question(
    m: Shared,
    k: Condition,
    word: Outcome,
    a: Acceptor,
    row: BallotRow,
    e: BallotEvent,
) -> Result<(), Refusal>
    ensures { reply_of result ≡ first_no (ballot_asked m k word a row e) }
{
    match e {
        BallotEvent::Open { id, ballot } => { open_ballot_question(m, k, word, a, row, id, ballot) }
        BallotEvent::Carry {
            from,
            to,
            kind,
            ballot,
        } => carry_question(m, k, row, from, to, kind, ballot),
    }
}
