// Test schedules that can be made again: event records drawn from a starting number, and what the generator program writes of them.
#![tactic(auto)]

mod drawing;
mod file;
mod output;

pub use file::{MOST_DRAWN, file_length, files, generate};
use model::Event;
pub use output::{LONGEST_OUTPUT, longest_output, render};

// An event that was drawn, and the state of the generator after it.
#[derive(Clone, Copy)]
pub(crate) struct Drawn {
    pub event: Event,
    pub state: u32,
}
