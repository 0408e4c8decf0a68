// The records program: a schedule in either form on standard input, its records or the refusal on standard output.
#![tactic(auto)]

use bench_report::LONGEST_SCHEDULE;
use schedule_input::{LONGEST_TEXT, render_records};
use streams::print_rendered;

// one byte more than a text may have, so that a longer one is known by it
const INPUT: usize = LONGEST_TEXT + 1;

// Room for any output: `records-fit` of schedule_input, Room.
fn main(rt: HostRuntime) {
    print_rendered::<INPUT, LONGEST_SCHEDULE, _>(&rt, |s, out| render_records(s, out));
}
