// The keeper's program: the range above a gate and the one below it on standard input, the gate's willingness on standard output.
#![tactic(auto)]

use levels_text::ROOM;
use streams::print_rendered;

// One byte more than two ranges have; and room for any output: the law output-length of levels_text.
fn main(rt: HostRuntime) {
    print_rendered::<17, ROOM, _>(&rt, levels_text::render);
}
