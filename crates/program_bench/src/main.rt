// The bench program: a schedule in either form on standard input, the report on standard output.
#![tactic(auto)]

use bench_output::render_either;
use bench_report::LONGEST_OUTPUT;
use schedule_input::LONGEST_TEXT;
use streams::print_rendered;

// one byte more than a text may have, so that a longer one is known by it
const INPUT: usize = LONGEST_TEXT + 1;

// Room for any output: `bench_output::always_prints`.
fn main(rt: HostRuntime) {
    print_rendered::<INPUT, LONGEST_OUTPUT, _>(&rt, |s, out| render_either(s, out));
}
