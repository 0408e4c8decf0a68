// The rules of ballots (document 02, U14), of one controller and of one ballot on the bench. Each function is equal to the definition of its name.
#![tactic(auto)]

mod acceptors;
mod chosen;
mod fresh;
mod numbers;
mod owners;
mod rows;

pub use acceptors::{accept_arrives, no_promise, prepare_arrives, unanswered};
pub use chosen::{chosen_in, is_chosen};
pub use fresh::{new_acceptor, new_ballots, new_row, new_tally};
pub use numbers::{is_majority, owner};
pub use owners::{open_ballot, promise_arrives};
pub use rows::{is_owner_in, may_open_ballot, row_after, was_sent_in};
