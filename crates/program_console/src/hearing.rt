// What is typed: lines, and what they stand for.
ghost use Rattle.std.specs.Prelude.{◌≤◌, length, IfSome};

use event_record::read_event;
use model::{Act, Event};
use schedule_input::{LONGEST_OUTPUT, LONGEST_TEXT, is_text, render_text};
use schedule_text::{TurnError, read};
use streams::{read_input, read_some, write_output};
use text::Writer;
use words::{Class, end_of_run};

// One byte more than a text may have, so that a longer one is known by it.
pub const ROOM: usize = LONGEST_TEXT + 1;

// What a line stands for: nothing, a call for help at a terminal, an act; or which of its words was not expected.
// stays (no plainer): four things are done of a line, and none of them is an error of the others.
#[derive(Clone, Copy)]
pub enum Heard {
    Nothing,
    Help,
    Plays(Act),
    Unexpected(usize),
}

// Where the line ends that begins at a place, how many bytes were read by then, and whether it is the last.
#[derive(Clone, Copy)]
pub struct Found {
    pub end: usize,
    pub have: usize,
    pub last: bool,
}

// Records, all of them read, become their text at the buffer's front, so many bytes; what is refused is printed, and there is nothing more to do.
fn text_of(rt: &HostRuntime, input: &mut [u8], have: usize) -> Option<usize>
    requires { have ≤ length input.old }
    ensures { IfSome result (λ n. n ≤ length input.new) }
{
    let mut text = [0u8; LONGEST_OUTPUT];
    let n = render_text(&input[..have], &mut text);
    if text[0] == b'-' {
        let _ = write_output(rt, &text[..n]);
        return None;
    }
    let mut w = Writer::new(&mut *input);
    w.bytes(&text[..n]);
    let end = w.at;
    if input.len() < end {
        return None;
    }
    Some(end)
}

// How many bytes of text lie in the buffer, unless there is nothing more to do. At a terminal nothing is read yet. Of anything else all is, so that its form
// can be told, and records become text.
pub fn first_lines(rt: &HostRuntime, input: &mut [u8], terminal: bool) -> Option<usize>
    ensures { IfSome result (λ n. n ≤ length input.new) }
{
    if terminal {
        return Some(0);
    }
    let Ok(have) = read_input(rt, &mut *input) else {
        return None;
    };
    if is_text(&input[..have]) {
        return Some(have);
    }
    text_of(rt, &mut *input, have)
}

// Reads on, once; a failure is told by the streams, and ends all.
fn read_more(rt: &HostRuntime, input: &mut [u8], have: usize) -> Option<usize>
    requires { have ≤ length input.old }
    ensures { IfSome result (λ n. n ≤ length input.new) }
{
    let Ok(more) = read_some(rt, &mut input[have..]) else {
        return None;
    };
    Some(have + more)
}

// Where the line ends that a place stands in.
fn line_end(s: &[u8], at: usize) -> usize
    ensures { result ≤ length s.now }
{
    if s.len() < at {
        return s.len();
    }
    end_of_run(s, at, Class::Line)
}

// Reads on until the line that begins at a place has ended, unless reading fails before.
pub fn next_line(rt: &HostRuntime, input: &mut [u8], at: usize, have: usize) -> Option<Found> {
    if input.len() < have {
        return None;
    }
    let mut have = have;
    // stays (no plainer): each turn reads as much as there is
    while have < input.len() {
        let end = line_end(&input[..have], at);
        if end < have {
            return Some(Found {
                end,
                have,
                last: false,
            });
        }
        let now = read_more(rt, &mut *input, have)?;
        if now <= have {
            return Some(Found {
                end,
                have,
                last: true,
            });
        }
        have = now;
    }
    Some(Found {
        end: have,
        have,
        last: true,
    })
}

// What the line between two places stands for.
pub fn hear(input: &[u8], at: usize, end: usize, terminal: bool) -> Heard {
    if end < at {
        return Heard::Nothing;
    }
    if input.len() < end {
        return Heard::Nothing;
    }
    hear_line(&input[at..end], terminal)
}

fn hear_line(l: &[u8], terminal: bool) -> Heard {
    if terminal && l == b"help".as_slice() {
        return Heard::Help;
    }
    let mut record = [0u8; Event::LENGTH];
    match read(l, &mut record) {
        Err(TurnError::Refused { by, .. }) => Heard::Unexpected(by),
        Err(TurnError::NoRoom) => Heard::Nothing,
        Ok(n) => heard_of(record, n),
    }
}

// The act of a line's record, if it stands for one.
fn heard_of(record: [u8; Event::LENGTH], n: usize) -> Heard {
    if n == 0 {
        return Heard::Nothing;
    }
    match read_event(&record) {
        Ok(a) => Heard::Plays(a),
        Err(_) => Heard::Nothing,
    }
}
