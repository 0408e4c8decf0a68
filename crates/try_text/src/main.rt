// Reads frames of 512 bytes: 0 for the records or 1 for the text of a schedule, its length (2), and the schedule with noughts after it. Writes of each what `records`
// or `text` prints, after the length of that (2). Another implementation writes the same.
#![tactic(auto)]

use schedule_input::{render_records, render_text};
use streams::{Failed, read_input, rounds, write_output};

const FRAME: usize = 512;

const HEAD: usize = 3;

// room for what is printed of a frame's schedule
const ROOM: usize = 4096;

// The length before the bytes, and the bytes.
fn answer(rt: &HostRuntime, bytes: &[u8]) -> Result<(), Failed> {
    let length = (bytes.len() % 65536) as u16;
    write_output(rt, &length.to_be_bytes())?;
    write_output(rt, bytes)
}

// Answers a schedule.
fn turn(rt: &HostRuntime, mode: u8, s: &[u8]) -> Result<(), Failed> {
    let mut out = [0u8; ROOM];
    if mode == 0 {
        let length = render_records(s, &mut out);
        return answer(rt, &out[..length]);
    }
    let length = render_text(s, &mut out);
    answer(rt, &out[..length])
}

// Answers the next frame, and whether there may be another.
fn round(rt: &HostRuntime) -> Result<bool, Failed> {
    let mut frame = [0u8; FRAME];
    if read_input(rt, &mut frame)? != FRAME {
        return Ok(false);
    }
    let n = usize::from(u16::from_be_bytes([frame[1], frame[2]]));
    if FRAME < HEAD + n {
        return Ok(false);
    }
    turn(rt, frame[0], &frame[HEAD..HEAD + n])?;
    Ok(true)
}

fn main(rt: HostRuntime) {
    rounds(1 << 32, || round(&rt));
}
