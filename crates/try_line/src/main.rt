// Runs sequences of 40 acts, one after the other on standard input, each on a new line, and prints the lines of each. For comparison with
// another implementation.
#![tactic(auto)]

use streams::{Failed, read_input, rounds, write_output};

const ACTS: usize = 40;

// Runs the next sequence, and whether there may be another.
fn sequence(rt: &HostRuntime) -> Result<bool, Failed> {
    let mut input = [0u8; ACTS];
    let n = read_input(rt, &mut input)?;
    // 22 bytes an act
    let mut text = [0u8; 22 * ACTS];
    let length = line_output::render(&input[..n], &mut text);
    write_output(rt, &text[..length])?;
    Ok(n == ACTS)
}

fn main(rt: HostRuntime) {
    rounds(1_000_000, || sequence(&rt));
}
