// The ballots of a new order: nothing is promised, counted or accepted.
ghost use Rattle.std.specs.Prelude.{◌≡◌, replicate};
ghost use Rattle.ground.specs.Limit.{limit};
ghost use Rattle.protocol.specs.Ballots.{new_acceptor, new_tally, new_row, new_ballots};

use ground::LIMIT;
use model::Outcome;
use protocol::{Acceptor, BALLOTS, BallotRow, Ballots, Tally};

pub fn new_acceptor() -> Acceptor
    ensures { result ≡ new_acceptor }
{
    Acceptor {
        highest: 0,
        promised: 0,
        last: 0,
        word: Outcome::None,
    }
}

pub fn new_tally() -> Tally
    ensures { result ≡ new_tally }
{
    Tally {
        from: 0,
        top: 0,
        top_word: Outcome::None,
        word: Outcome::None,
    }
}

pub fn new_row() -> BallotRow
    ensures { result ≡ new_row (replicate limit 0) }
{
    BallotRow {
        tally: new_tally(),
        promised_by: 0,
        lasts: [0u8; LIMIT],
        accepted_by: 0,
    }
}

pub fn new_ballots() -> Ballots
    ensures { result ≡ new_ballots }
{
    Ballots {
        acceptors: [new_acceptor(); LIMIT],
        rows: [new_row(); BALLOTS],
    }
}
