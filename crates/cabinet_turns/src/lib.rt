// What each call makes of a cabinet: what is asked of it, the next cabinet, the telegrams that it has sent, and what
// a display shows.
#![tactic(auto)]

mod asked;
mod ballots;
mod display;
mod telegrams;
mod turns;

pub use asked::{
    begin_question, decide_question, order_question, present_question, timeout_question,
    vote_question, wake_question,
};
pub use ballots::{open_question, opened, receive_question, received};
pub use display::shown;
pub use telegrams::nth_telegram;
pub use turns::{begun, decided, halted, ordered, timed_out, voted, woken};
