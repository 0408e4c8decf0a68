// The events of ballots (document 02, U14): asked and played on the acceptor of their controller and on the row of their ballot.
ghost use Rattle.std.specs.Prelude.{◌%◌, ◌≡◌, length, replicate};
ghost use Rattle.ground.specs.Limit.{limit};
ghost use Rattle.ground.specs.Lists.{nth, put};
ghost use Rattle.model.specs.declared.Event.TheVariants.{OfBallots};
ghost use Rattle.protocol.specs.Ballots.{ballot_limit, new_row};
ghost use Rattle.protocol.specs.BallotSteps.{row_after};
ghost use Rattle.bench_state.specs.BallotQuestions.{ballot_number};
ghost use Rattle.bench_turns.specs.BallotTurns.{reported_ballot, word_in, ballot_answer};
ghost use Rattle.bench_step.specs.Steps.{stepped, stepped_of};

use crate::stations::station_at;
use ballot_rules::{new_acceptor, new_row, row_after};
use bench_state::ballot_question;
use bench_turns::{
    ballot_answer, ballot_of, condition_of, proposal_of, report_in, subject_of, word_in,
};
use ground::{nth, put};
use model::{BallotEvent, Outcome, Refusal};
use protocol::{Acceptor, BALLOTS, BallotAnswer, BallotRow, Ballots, Bench};

// Ballot b; a number that no ballot has reads as one that is not opened. There are as many rows as there are ballots.
fn row_at(rows: [BallotRow; BALLOTS], b: u32) -> BallotRow
    ensures value { result ≡ nth (new_row (replicate limit 0)) rows b }
    ensures rows_len { length rows ≡ ballot_limit }
{
    nth(rows, b as usize, new_row())
}

// The ballots after controller i's answer in ballot b.
fn answered(s: Ballots, i: u8, b: u32, row: BallotRow, x: BallotAnswer) -> Ballots
    ensures { result ≡ record { acceptors = put s.acceptors i x.acceptor; rows = put s.rows b (row_after row i x) } }
{
    Ballots {
        acceptors: put(s.acceptors, i as usize, x.acceptor),
        rows: put(s.rows, b as usize, row_after(row, i, x)),
    }
}

// The answer of the controller, which has put `own`.
fn answer_to(
    n: u8,
    e: BallotEvent,
    own: Outcome,
    a: Acceptor,
    row: BallotRow,
    rows: [BallotRow; BALLOTS],
) -> BallotAnswer
    ensures { result ≡ ballot_answer n (ballot_number e % 256) e own a row (word_in (reported_ballot e row) (nth (new_row (replicate limit 0)) rows (reported_ballot e row))) }
{
    let last = report_in(e, row);
    let reported = word_in(last, row_at(rows, last as u32));
    ballot_answer(n, e, own, a, row, reported)
}

pub(crate) fn ballot(b: Bench, e: BallotEvent) -> Result<Bench, Refusal>
    ensures { stepped_of b result ≡ stepped b (OfBallots e) }
{
    let id = subject_of(e);
    let s = station_at(b, id);
    let own = proposal_of(s);
    let number = ballot_of(e);
    let ballots = b.ballots;
    let acceptors = ballots.acceptors;
    let rows = ballots.rows;
    let a = nth(acceptors, id as usize, new_acceptor());
    let row = row_at(rows, number);
    ballot_question(b.shared, condition_of(s), own, a, row, e)?;
    let x = answer_to(b.shared.n, e, own, a, row, rows);
    let shared = b.shared;
    let stations = b.stations;
    Ok(Bench {
        shared,
        ballots: answered(ballots, id, number, row, x),
        stations,
    })
}
