// The line program: acts on standard input, a line for each on standard output.
#![tactic(auto)]

use line_output::MOST;
use streams::print_rendered;

// one byte more than the acts that are run, so that more are known by it
const INPUT: usize = MOST + 1;

// Room for any output: always_fits of line_output, Room.
fn main(rt: HostRuntime) {
    print_rendered::<INPUT, 90112, _>(&rt, line_output::render);
}
