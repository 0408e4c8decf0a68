// Reads frames of 40 bytes and prints a line for each: what reading or writing a record answers. Another implementation prints the same.
//
// Byte 0 says what to do: 0, 1, 2 read a telegram, a checkpoint, an event; 3, 4, 5 write one. Byte 1 is the length of the slice or of the buffer, 0 to
// 32. What is read, or the fields of what is written, starts at byte 2. A short last frame is ignored.
#![tactic(auto)]

mod line;
mod reading;
mod writing;

use line::Line;
use streams::{Failed, read_input, rounds};

const FRAME: usize = 40;

const CHUNK: usize = 40960;

fn line_of(frame: &[u8; FRAME]) -> Line {
    let what = frame[0];
    let size = usize::from(frame[1]);
    if 32 < size {
        return writing::unlisted();
    }
    let end = 2 + size;
    if what < 3 {
        return reading::line_of(what, &frame[2..end]);
    }
    let mut out = [0xA5u8; 32];
    writing::line_of(what, &frame[2..], &mut out[..size])
}

// The frames of a chunk, one after the other.
fn run(rt: &HostRuntime, s: &[u8]) -> Result<(), Failed> {
    let mut rest = s;
    while let Some((frame, after)) = rest.split_first_chunk::<FRAME>() {
        line_of(frame).print(rt)?;
        rest = after;
    }
    Ok(())
}

// Reads and runs as many frames as there are at once, and answers whether there may be more.
fn round(rt: &HostRuntime) -> Result<bool, Failed> {
    let mut buf = [0u8; CHUNK];
    let n = read_input(rt, &mut buf)?;
    run(rt, &buf[..n])?;
    Ok(n == CHUNK)
}

fn main(rt: HostRuntime) {
    rounds(1 << 32, || round(&rt));
}
