// A controller as a step machine: a call goes in by value, an answer with the next controller comes out. A call at a wrong stage or in a wrong
// condition changes nothing, and the answer says so.
#![tactic(auto)]

mod ballot_sequence;
mod ballots;
mod calls;
mod lifecycle;
mod sequence;

pub use ballot_sequence::{ballot_to, count_others, nth_ballot_message, nth_of_one, nth_to_others};
pub use ballots::{may_open, open, receive_ballot, takes_ballot};
pub use calls::{receive, timeout, vote};
pub use lifecycle::{decide, renew, restore, save, stop};
pub use sequence::nth_message;
