// What the bench program prints of the answers to a schedule and of the bench after it, written into a lent buffer.
#![tactic(auto)]

ghost use Rattle.std.specs.Prelude.{◌≡◌, ◌≤◌, length};
ghost use Rattle.text.specs.Writing.{Put, fitted, fitted_length};
ghost use Rattle.bench_report.specs.Limits.{most_answers, is_too_long, longest_report};
ghost use Rattle.bench_report.specs.Lines.{report_of};
ghost use Rattle.bench_report.specs.Report.{too_long, reported};

use ground::LIMIT;
use lines::{put_answers, put_controllers, put_messages};
pub use lines::{put_controller, row_at};
use model::{Event, Outcome};
use text::{Writer, write_refusal};

mod lines;

// "Above 40,960 bytes it prints just "- 1"."
pub const LONGEST_SCHEDULE: usize = 40960;

// It has so many records.
pub const MOST_ANSWERS: usize = LONGEST_SCHEDULE / Event::LENGTH;

// No line of an answer, of a controller, of the messages is longer.
const ANSWER_LINE: usize = 22;

const CONTROLLER_LINE: usize = 38;

const MESSAGE_LINE: usize = 46;

// A buffer of so many bytes holds whatever the program prints: bench_output's `always_prints`.
pub const LONGEST_OUTPUT: usize = MOST_ANSWERS * ANSWER_LINE
    + LIMIT * CONTROLLER_LINE
    + MESSAGE_LINE;

// The last four digits of a number, as they are printed.
// stays (speed): the digits of an index are counted up by tens, not divided out at each line.
#[derive(Clone, Copy)]
pub(crate) struct Digits {
    pub thousands: u8,
    pub hundreds: u8,
    pub tens: u8,
    pub ones: u8,
}

// What a C line shows of a controller.
#[derive(Clone, Copy)]
pub struct Row {
    pub stage: u8,
    pub outcome: Outcome,
    // two's complement of millimetres
    pub position: u32,
}

// What the T line shows: the messages sent in this order, by kind.
#[derive(Clone, Copy)]
pub struct MessageCounts {
    pub vote: u32,
    pub ack: u32,
    pub help: u32,
    pub helped: u32,
}

// What the report shows of a bench.
#[derive(Clone, Copy)]
pub struct Summary {
    pub n: u8,
    // by controller
    pub rows: [Row; LIMIT],
    pub messages: MessageCounts,
}

// Is a schedule of so many bytes not run?
pub fn is_too_long(length: usize) -> bool
    ensures { result ≡ is_too_long length }
{
    LONGEST_SCHEDULE < length
}

// The one line for it.
pub fn write_too_long(out: &mut [u8]) -> usize
    ensures value { result ≡ fitted_length too_long out.old }
    ensures out_after { out.new ≡ fitted too_long out.old }
{
    write_refusal(&mut *out, 1)
}

// The report on the answers given and the bench as it then stands: its length, its bytes at the front of the buffer. Where it does not fit
// the buffer, or the answers are more than those of any schedule, nothing is written, and the answer is 0.
pub fn write_report(out: &mut [u8], answers: &[u8], s: Summary) -> usize
    ensures value { result ≡ fitted_length (reported answers.now s) out.old }
    ensures out_after { out.new ≡ fitted (reported answers.now s) out.old }
{
    if MOST_ANSWERS < answers.len() {
        return 0;
    }
    // a buffer that is surely long enough needs no measuring
    if longest_report(answers.len(), s.n) <= out.len() {
        return put_report(&mut *out, answers, s);
    }
    if out.len() < measure(answers, s) {
        return 0;
    }
    put_report(&mut *out, answers, s)
}

// No report on so many answers and controllers is longer.
fn longest_report(answers: usize, n: u8) -> usize
    requires { answers ≤ most_answers }
    ensures { result ≡ longest_report answers n }
{
    answers * ANSWER_LINE + (n as usize) * CONTROLLER_LINE + MESSAGE_LINE
}

// The report's length: it is written where none of its bytes is kept.
fn measure(answers: &[u8], s: Summary) -> usize
    requires { length answers.now ≤ most_answers }
    ensures { result ≡ length (report_of answers.now s) }
{
    let mut none = [0u8; 0];
    put_report(&mut none, answers, s)
}

// The whole text, from the buffer's start.
fn put_report(out: &mut [u8], answers: &[u8], s: Summary) -> usize
    requires { length answers.now ≤ most_answers }
    ensures { Put out.old out.new 0 result (report_of answers.now s) }
{
    let at = put_answers(&mut *out, answers);
    let mut w = Writer { out, at };
    put_controllers(&mut w, s.n, s.rows);
    put_messages(&mut w, s.messages);
    w.at
}
