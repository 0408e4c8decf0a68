// The dues program: a sheet of lockages on standard input, both owners' totals or the refusal on standard output. It is read in pieces, since 1 and 3 are
// asked of all of it before 22.
#![tactic(auto)]

use dues::{Kept, LONGEST_OUTPUT, PIECE, kept_with, nothing_kept};
use streams::{Failed, read_input, rounds, write_output};

// After the last piece the answer is printed.
fn print(rt: &HostRuntime, kept: Kept, last: &[u8]) -> Result<(), Failed> {
    // room for any output: `always-fits` of dues, PrintedLaws
    let mut text = [0u8; LONGEST_OUTPUT];
    let length = dues::render(kept, last, &mut text);
    write_output(rt, &text[..length])
}

// Reads the next piece into what is kept of those before, and whether there may be another.
fn read_piece(rt: &HostRuntime, kept: &mut Kept) -> Result<bool, Failed> {
    let mut input = [0u8; PIECE];
    let n = read_input(rt, &mut input)?;
    if n < PIECE {
        print(rt, *kept, &input[..n])?;
        return Ok(false);
    }
    *kept = kept_with(*kept, &input);
    Ok(true)
}

fn main(rt: HostRuntime) {
    let mut kept = nothing_kept();
    rounds(u64::MAX, || read_piece(&rt, &mut kept));
}
