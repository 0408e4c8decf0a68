// The generator program: n, f, count and start on standard input, the file or a refusal on standard output.
#![tactic(auto)]

use generator::LONGEST_OUTPUT;
use streams::print_rendered;

// One byte more than the input has; and room for any output: `generator::longest_output`.
fn main(rt: HostRuntime) {
    print_rendered::<9, LONGEST_OUTPUT, _>(&rt, |s, out| generator::render(s, out));
}
