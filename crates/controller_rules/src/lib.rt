// The rules of a controller (document 01, "A controller's rules"): what it does with its vote, with each kind of message and at its two timeouts, each
// equal to its definition. Beside them what the vote sets that it holds say: whether they decide, whether they suffice to put a word, and whether another
// contradicts one of them. Whether a call is taken at all, crate `controller` asks.
#![tactic(auto)]

mod arrivals;
mod deciding;
mod first;
mod held;
mod second;
mod vote;
mod waiting;

pub use arrivals::{arrives, help_arrives, helped_arrives, takes_ack, vote_arrives};
pub use first::{acknowledge, counts_own, first_timeout};
pub use held::contradicts_held;
pub use second::second_timeout;
pub use vote::vote_rule;
pub use waiting::propose_if_sufficient;
