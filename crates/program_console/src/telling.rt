// What is said.
use crate::hearing::Heard;
use event_record::{fields_of, record_bytes};
use model::Act;
use protocol::Bench;
use schedule_input::write_refused_line;
use schedule_text::write;
use streams::write_output;
use text::Writer;
use trace_text::put_shown;

// Room for what is shown of one act: 32 C lines, and at most 124 telegrams, words and the like of 84 bytes.
const ROOM: usize = 65536;

fn tell_help(rt: &HostRuntime) -> bool {
    write_output(
        rt,
        b"A bench to sit at. One event a line; each is answered at once, and then what came of it. Ctrl-D ends.
lock n f                       a lock of n controllers, up to f of which may be down
lock n f own-arbiter           one without an arbiter
order k                        order k is opened
vote i willing mm              controller i votes, with its target; or unwilling
deliver vote i j               a telegram from i to j arrives; also acknowledgement, help-call, help-answer
deliver ask b i j              one of ballot b; also promise, put, taken
bell i                         the clock of i rings
arbiter i move                 the arbiter's word comes to i; or stay
stop i, save i, restore i      i stops, is saved, is brought back
ballot i b                     i opens ballot b
back                           the last accepted event is undone
help                           this again
",
    )
    .is_ok()
}

// Whoever sits at a terminal is asked for a line.
pub fn prompt(rt: &HostRuntime, terminal: bool) {
    if terminal {
        let _ = write_output(rt, b"> ");
    }
}

pub fn greet(rt: &HostRuntime, terminal: bool) {
    if terminal {
        tell_help(rt);
    }
    prompt(rt, terminal);
}

// The line of an act, as whoever types it sees it.
fn put_echo(w: &mut Writer, a: Act) {
    let record = record_bytes(fields_of(a));
    let mut line = [0u8; 80];
    w.bytes(b"> ");
    let Ok(n) = write(&record, &mut line) else {
        return;
    };
    if n <= 80 {
        w.bytes(&line[..n]);
    }
}

// What came of an act; from a file or a pipe its line before that.
fn tell_act(
    rt: &HostRuntime,
    terminal: bool,
    a: Act,
    k: u32,
    undone: u32,
    answer: u8,
    old: Bench,
    new: Bench,
) -> bool {
    let mut out = [0u8; ROOM];
    let mut w = Writer::new(&mut out);
    if !terminal {
        put_echo(&mut w, a);
    }
    put_shown(&mut w, k, undone, a, answer, old, new);
    let end = w.at;
    if ROOM < end {
        return false;
    }
    write_output(rt, &out[..end]).is_ok()
}

// A line that is no event: its number and the first word that was not expected.
fn tell_refused(rt: &HostRuntime, input: &[u8], have: usize, line: usize, word: usize) -> bool {
    if input.len() < have {
        return false;
    }
    let mut out = [0u8; 60];
    let end = write_refused_line(&mut out, &input[..have], line, word);
    if 60 < end {
        return false;
    }
    write_output(rt, &out[..end]).is_ok()
}

// What is said of a line; false where it could not be written.
pub fn tell(
    rt: &HostRuntime,
    terminal: bool,
    heard: Heard,
    input: &[u8],
    have: usize,
    line: usize,
    k: u32,
    undone: u32,
    answer: u8,
    old: Bench,
    new: Bench,
) -> bool {
    match heard {
        Heard::Nothing => true,
        Heard::Help => tell_help(rt),
        Heard::Unexpected(word) => tell_refused(rt, input, have, line, word),
        Heard::Plays(a) => tell_act(rt, terminal, a, k, undone, answer, old, new),
    }
}
