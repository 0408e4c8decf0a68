// Reads pairs of ranges, sixteen bytes each with nothing between, and prints of each what the levels program prints, a short last one
// included. Another implementation prints the same.
#![tactic(auto)]

use levels_text::ROOM;
use streams::{Failed, read_input, rounds, write_output};

const PAIR: usize = 16;

// Answers the next pair, and whether there may be another.
fn round(rt: &HostRuntime) -> Result<bool, Failed> {
    let mut pair = [0u8; PAIR];
    let n = read_input(rt, &mut pair)?;
    if n == 0 {
        return Ok(false);
    }
    let mut text = [0u8; ROOM];
    let length = levels_text::render(&pair[..n], &mut text);
    write_output(rt, &text[..length])?;
    Ok(n == PAIR)
}

fn main(rt: HostRuntime) {
    rounds(1 << 32, || round(&rt));
}
