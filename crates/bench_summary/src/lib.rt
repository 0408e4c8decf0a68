// What a report shows of a bench.
#![tactic(auto)]

mod rows;
mod sending;
mod summary;

pub use sending::receivers;
pub use summary::summary_of;
