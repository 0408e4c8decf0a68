// What an accepted event leaves of the station of the controller that it concerns: a turn. The step by value and the run go by these.
#![tactic(auto)]

mod ballots;
mod effects;
mod stations;
mod turns;

pub use ballots::{
    ballot_answer, ballot_of, ballot_turn, chosen_at, rebuilt, report_in, subject_of, word_in,
};
pub use effects::answering;
use protocol::{Acceptor, BallotRow};
pub use stations::{condition_of, identity, is_saved, outgoing, proposal_of};
pub use turns::{
    cast_turn, decide_turn, first_turn, help_turn, helped_turn, renewed, restore_turn, save_turn,
    second_turn, settled_turn, stop_turn, vote_turn,
};

// What an accepted event of ballots leaves: the acceptor of the controller that it concerns, and the row of its ballot.
#[derive(Clone, Copy)]
pub struct BallotTurn {
    pub acceptor: Acceptor,
    pub row: BallotRow,
}
