// A bench's parts as they begin, what is shared and what an event leaves of it, and the questions that the bench puts to an event, from what they look at.
#![tactic(auto)]

mod ballots;
mod counts;
mod parts;
mod questions;
mod shared;
mod tests;

pub use ballots::ballot_question;
pub use counts::counts_after;
pub use parts::{all_undecided, bench_of, fresh_station, new_bench, new_shared};
pub use questions::{
    cast_question, decide_question, deliver_question, lock_question, order_question,
    present_question, restore_question, timeout_question,
};
pub use shared::{decided_as, may_open, open_gates, order_opened, proposed_to};
pub use tests::may_give;
