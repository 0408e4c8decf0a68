// A schedule in either form: which one it is, its records, and what the programs `records` and `text` print of it.
#![tactic(auto)]

mod forms;
mod output;
mod refusals;

ghost use Rattle.schedule_input.specs.NothingLost.{NothingLost};

pub use forms::{is_text, records_in};
pub use output::{render_records, render_text};
pub use refusals::write_refused_line;

// The most bytes of a text that the programs take.
pub const LONGEST_TEXT: usize = 327_680;

// No output is longer: 4,096 lines of 80 bytes (specs, Room).
pub const LONGEST_OUTPUT: usize = 327_680;

// Of bytes that are taken as text no record reads, and the text of a schedule is taken as text.
pub fn nothing_lost()
    ensures { NothingLost }
{}
