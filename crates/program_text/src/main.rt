// The text program: a schedule in either form on standard input, its text or the refusal on standard output.
#![tactic(auto)]

use schedule_input::{LONGEST_OUTPUT, LONGEST_TEXT, render_text};
use streams::print_rendered;

// one byte more than a text may have, so that a longer one is known by it
const INPUT: usize = LONGEST_TEXT + 1;

// Room for any output: `text_fits` of schedule_input, Room.
fn main(rt: HostRuntime) {
    print_rendered::<INPUT, LONGEST_OUTPUT, _>(&rt, |s, out| render_text(s, out));
}
