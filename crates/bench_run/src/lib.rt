// A whole schedule, played on a new bench. The bench of a run is an array of stations by value, of which an event changes one element.
#![tactic(auto)]

mod memory;
mod runs;

use bench_report::Summary;
use model::Event;
pub use runs::run;

// What a run returns: whether there was room for all answers, so that it was run; how many there are; of the bench at the end, how many gates are still open
// and what a report shows.
// stays (promise): `RunAsDefined` says of a run that had no room too what a new bench shows.
#[derive(Clone, Copy)]
pub struct RunResult {
    pub complete: bool,
    pub count: usize,
    pub open_gates: u8,
    pub summary: Summary,
}

// What comes next in a run: an event is played, or something else is done.
#[derive(Clone, Copy)]
pub enum Next {
    Play(Event),
    Other(Pause),
}

// A record is refused in reading; a step is taken back; or what the record before came to is noted.
// stays (no plainer): three things that a run does between events; the refused record's number is stored as it is.
#[derive(Clone, Copy)]
pub enum Pause {
    Refused(u8),
    Back,
    Note,
}
