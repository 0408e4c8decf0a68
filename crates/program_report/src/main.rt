// The report program: n, f, count, s and k on standard input, the page of a report over k schedules or a refusal on standard output.
#![tactic(auto)]

use streams::print_rendered;
use survey_output::LONGEST_OUTPUT;

// One byte more than the input has; and room for any output: `survey_output::longest_output`.
fn main(rt: HostRuntime) {
    print_rendered::<11, LONGEST_OUTPUT, _>(&rt, survey_output::render);
}
