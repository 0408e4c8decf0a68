// A report over many schedules (document 02, U13): what is counted of a schedule's end, the questions put to the record, and the page that is printed.
#![tactic(auto)]

mod ended;
mod page;
mod questions;

ghost use Rattle.survey.specs.Claim.{Surveyed};

use bench_report::MessageCounts;
pub use ended::ending_of;
pub use page::{LONGEST_PAGE, write_page};
pub use questions::refusal_of;

// How a schedule ended: every controller not stopped Move, every one Stay, or neither.
#[derive(Clone, Copy)]
pub enum Ending {
    Moved,
    Stayed,
    Rest,
}

// How many schedules ended in which way.
#[derive(Clone, Copy)]
pub struct Endings {
    pub moved: u32,
    pub stayed: u32,
    pub rest: u32,
}

// The most messages that were sent in one schedule, and its generator number.
#[derive(Clone, Copy)]
pub struct Most {
    pub sent: u32,
    pub number: u32,
}

// What is counted of some schedules.
#[derive(Clone, Copy)]
pub struct Survey {
    pub endings: Endings,
    pub messages: MessageCounts,
    pub most: Most,
    // of all kinds
    pub sum: u32,
}

// What is promised of the figures of every report.
pub fn surveyed()
    ensures { Surveyed }
{}
