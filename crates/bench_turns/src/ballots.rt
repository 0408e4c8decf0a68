// What an event of ballots does, from the acceptor of the controller that it concerns and the row of its ballot (document 02, U14).
ghost use Rattle.std.specs.Prelude.{◌%◌, ◌≡◌, ◌&&◌};
ghost use Rattle.model.specs.Refusals.{numbered};
ghost use Rattle.protocol.specs.Ballots.{is_word_of, majority, report};
ghost use Rattle.protocol.specs.BallotSteps.{ballot_subject};
ghost use Rattle.bench_state.specs.BallotQuestions.{ballot_number};
ghost use Rattle.bench_turns.specs.BallotTurns.{reported_ballot, word_in, carried_answer, ballot_answer, ballot_turn};

use crate::BallotTurn;
use crate::stations::{condition_of, proposal_of};
use ballot_rules::{
    accept_arrives, chosen_in, open_ballot, prepare_arrives, promise_arrives, row_after, unanswered,
};
use bench_state::ballot_question;
use ground::nth;
use model::{BallotEvent, BallotKind, Outcome, Refusal};
use protocol::{Acceptor, BallotAnswer, BallotRow, Shared, Station, Tally};

// The controller that it concerns.
pub fn subject_of(e: BallotEvent) -> u8
    ensures { result ≡ ballot_subject e }
{
    match e {
        BallotEvent::Open { id, .. } => id,
        BallotEvent::Carry { to, .. } => to,
    }
}

pub fn ballot_of(e: BallotEvent) -> u32
    ensures { result ≡ ballot_number e }
{
    match e {
        BallotEvent::Open { ballot, .. } => ballot,
        BallotEvent::Carry { ballot, .. } => ballot,
    }
}

// Which ballot j's promise reports; one that has no place reports nothing.
fn report_of(row: BallotRow, j: u8) -> u8
    ensures { result ≡ report row j }
{
    nth(row.lasts, j as usize, 0)
}

// Which ballot the sender's promise reports.
pub fn report_in(e: BallotEvent, row: BallotRow) -> u8
    ensures { result ≡ reported_ballot e row }
{
    match e {
        BallotEvent::Open { .. } => 0,
        BallotEvent::Carry { from, .. } => report_of(row, from),
    }
}

// The word of the ballot reported, from its row.
pub fn word_in(last: u8, row: BallotRow) -> Outcome
    ensures { result ≡ word_in last row }
{
    if last == 0 {
        return Outcome::None;
    }
    let tally = row.tally;
    let word = tally.word;
    word
}

// Is the word chosen in a ballot, by its row?
pub fn chosen_at(n: u8, row: BallotRow, to_move: bool) -> bool
    ensures { result ≡ (is_word_of row.tally.word to_move && majority n row.accepted_by) }
{
    let tally = row.tally;
    let word = tally.word;
    chosen_in(word, row.accepted_by, n, to_move)
}

// A message of ballot b arrives, from a controller that reports a ballot and its word.
fn carried(
    kind: BallotKind,
    n: u8,
    b: u8,
    from: u8,
    last: u8,
    reported: Outcome,
    own: Outcome,
    a: Acceptor,
    t: Tally,
) -> BallotAnswer
    ensures { result ≡ carried_answer kind n b from last reported own a t }
{
    match kind {
        BallotKind::Prepare => prepare_arrives(b, a, t),
        BallotKind::Promise => promise_arrives(n, b, from, last, reported, own, a, t),
        BallotKind::Accept => {
            let word = t.word;
            accept_arrives(b, word, a, t)
        }
        BallotKind::Accepted => unanswered(a, t),
    }
}

// The controller's answer to an event of ballots: it has put `own`.
pub fn ballot_answer(
    n: u8,
    e: BallotEvent,
    own: Outcome,
    a: Acceptor,
    row: BallotRow,
    reported: Outcome,
) -> BallotAnswer
    ensures { result ≡ ballot_answer n (ballot_number e % 256) e own a row reported }
{
    match e {
        BallotEvent::Open { id, ballot } => {
            open_ballot(n, (ballot % 256) as u8, id, own, a, row.tally)
        }
        BallotEvent::Carry {
            from,
            kind,
            ballot,
            ..
        } => {
            let last = report_of(row, from);
            carried(
                kind,
                n,
                (ballot % 256) as u8,
                from,
                last,
                reported,
                own,
                a,
                row.tally,
            )
        }
    }
}

// An event of ballots, asked and played: what it leaves of the acceptor and of the row. A refused one leaves them as they are.
#[tactic(auto, unfolding(crate::specs::BallotTurns::ballot_turn))]
pub fn ballot_turn(
    m: Shared,
    own: Station,
    a: Acceptor,
    row: BallotRow,
    reported: Outcome,
    e: BallotEvent,
) -> Result<BallotTurn, Refusal>
    ensures { numbered result ≡ ballot_turn m own a row reported e }
{
    let word = proposal_of(own);
    ballot_question(m, condition_of(own), word, a, row, e)?;
    let x = ballot_answer(m.n, e, word, a, row, reported);
    let acceptor = x.acceptor;
    let row = row_after(row, subject_of(e), x);
    Ok(BallotTurn { acceptor, row })
}

// The same event, from its fields. What the run looks at of an event of ballots goes through this: the fields of a record then stay apart where the compiler
// joins the kinds of event, and the other kinds cost no more for it.
pub fn rebuilt(e: BallotEvent) -> BallotEvent
    ensures { result ≡ e }
{
    match e {
        BallotEvent::Open { id, ballot } => BallotEvent::Open { id, ballot },
        BallotEvent::Carry {
            from,
            to,
            kind,
            ballot,
        } => BallotEvent::Carry {
            from,
            to,
            kind,
            ballot,
        },
    }
}
