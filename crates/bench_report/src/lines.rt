// The lines of the report.
ghost use Rattle.std.specs.Prelude.{◌≡◌, ◌∷◌, [], ◌++◌, ℕ, ◌≤◌, ◌<◌, ◌+◌, ◌*◌, ◌-◌, min, length, get_or};
ghost use Rattle.text.specs.Text.{ascii, decimal, line};
ghost use Rattle.text.specs.Writers.{Wrote};
ghost use Rattle.text.specs.Writing.{Put};
ghost use Rattle.bench_report.specs.Digits.{digits_of};
ghost use Rattle.bench_report.specs.Limits.{most_answers, answer_width};
ghost use Rattle.bench_report.specs.Lines.{letter, blank_row, controller_line, answer_lines, decade_lines, controller_lines, message_line};

use crate::{ANSWER_LINE, Digits, MessageCounts, Row};
use ground::LIMIT;
use model::Outcome;
use text::Writer;

// "outcome (M, S, -)"
fn letter_of(outcome: Outcome) -> u8
    ensures { result ∷ [] ≡ letter outcome }
{
    match outcome {
        Outcome::None => b'-',
        Outcome::Stay => b'S',
        Outcome::Move => b'M',
    }
}

// A space and an outcome.
fn put_outcome(w: &mut Writer, outcome: Outcome)
    ensures { Wrote w.old w.new (ascii " " ++ letter outcome) }
{
    w.byte(b' ');
    w.byte(letter_of(outcome))
}

// A byte where there is room for it.
// stays (speed): the lines of the answers are put on a buffer and a place, with no test of the buffer's end (`put_in` to `put_answers_in`).
fn put_in(out: &mut [u8], at: usize, b: u8) -> usize
    requires { at < length out.old }
    ensures { Put out.old out.new at result (b ∷ []) × (result ≡ at + 1) }
{
    out[at] = b;
    at + 1
}

// The digits of the number ten higher.
fn next_decade(d: Digits) -> Digits
    ensures { (i : ℕ) → d ≡ digits_of i → result ≡ digits_of (i + 10) }
{
    if d.tens < b'9' {
        return Digits {
            tens: d.tens + 1,
            ..d
        };
    }
    if d.hundreds < b'9' {
        return Digits {
            hundreds: d.hundreds + 1,
            tens: b'0',
            ..d
        };
    }
    if d.thousands < b'9' {
        return Digits {
            thousands: d.thousands + 1,
            hundreds: b'0',
            tens: b'0',
            ..d
        };
    }
    Digits {
        thousands: b'0',
        hundreds: b'0',
        tens: b'0',
        ..d
    }
}

// The number of so many tens and ones, at most four digits, where there is room for it. The digits of the decade's first number are given.
fn put_index(out: &mut [u8], at: usize, tens: usize, d: Digits, ones: usize) -> usize
    requires { (at + 4 ≤ length out.old) × (tens < 1000) × (d ≡ digits_of (tens * 10)) × (ones < 10) }
    ensures { Put out.old out.new at result (decimal (tens * 10 + ones)) × (result ≤ at + 4) }
{
    let last = d.ones + ones as u8;
    if 100 <= tens {
        let next = put_in(&mut *out, at, d.thousands);
        let next = put_in(&mut *out, next, d.hundreds);
        let next = put_in(&mut *out, next, d.tens);
        return put_in(&mut *out, next, last);
    }
    if 10 <= tens {
        let next = put_in(&mut *out, at, d.hundreds);
        let next = put_in(&mut *out, next, d.tens);
        return put_in(&mut *out, next, last);
    }
    if 1 <= tens {
        let next = put_in(&mut *out, at, d.tens);
        return put_in(&mut *out, next, last);
    }
    put_in(&mut *out, at, last)
}

// A space, an answer, which mostly has one digit, and the line's end, where there is room for these.
fn put_rest(out: &mut [u8], at: usize, answer: u8) -> usize
    requires { at + 3 ≤ length out.old }
    ensures { Put out.old out.new at result (ascii " " ++ (decimal answer ++ ascii "\n")) }
{
    let next = put_in(&mut *out, at, b' ');
    if answer < 10 {
        let next = put_in(&mut *out, next, b'0' + answer);
        return put_in(&mut *out, next, b'\n');
    }
    let mut w = Writer { out, at: next };
    w.number(answer as u32);
    w.byte(b'\n');
    w.at
}

// An index and an answer.
fn put_answer(w: &mut Writer, i: u32, answer: u8)
    ensures { Wrote w.old w.new (line (decimal i ∷ decimal answer ∷ [])) }
{
    w.number(i);
    w.field(answer as u32);
    w.byte(b'\n')
}

// The C line of controller k.
pub fn put_controller(w: &mut Writer, k: u32, row: Row)
    ensures { Wrote w.old w.new (controller_line k row) }
{
    w.byte(b'C');
    w.field(k);
    w.field(row.stage as u32);
    put_outcome(w, row.outcome);
    w.signed_field(row.position);
    w.byte(b'\n')
}

// The row at an index; past the last, a blank one.
pub fn row_at(rows: [Row; LIMIT], i: usize) -> Row
    ensures { result ≡ get_or rows i blank_row }
{
    if LIMIT <= i {
        return Row {
            stage: 0,
            outcome: Outcome::None,
            position: 0,
        };
    }
    rows[i]
}

// The lines of the indices that have so many tens; the digits of the first are given. The buffer has room for all lines at their longest. How many digits
// an index has is the same at each of these lines, so the loop need not test it.
fn put_decade(out: &mut [u8], at: usize, answers: &[u8], tens: usize, d: Digits) -> usize
    requires answers_len_bound { (length answers.now ≤ most_answers) × (length answers.now * answer_width ≤ length out.old) }
    requires tens_in_bounds { (tens * 10 ≤ length answers.now) × (at ≤ tens * 10 * answer_width) × (d ≡ digits_of (tens * 10)) }
    ensures { Put out.old out.new at result (decade_lines answers.now tens) }
{
    let size = (answers.len() - tens * 10).min(10);
    let mut next = at;
    for ones in 0..size {
        next = put_index(&mut *out, next, tens, d, ones);
        next = put_rest(&mut *out, next, answers[tens * 10 + ones]);
    }
    next
}

// A line for each answer, from the start of a buffer that has room for all of them at their longest.
fn put_answers_in(out: &mut [u8], answers: &[u8]) -> usize
    requires { (length answers.now ≤ most_answers) × (length answers.now * answer_width ≤ length out.old) }
    ensures { Put out.old out.new 0 result (answer_lines answers.now) }
{
    let mut next: usize = 0;
    let mut tens: usize = 0;
    let mut d = Digits {
        thousands: b'0',
        hundreds: b'0',
        tens: b'0',
        ones: b'0',
    };
    // stays (no plainer): a `for` would need the number of decades, rounded up, first
    while tens * 10 < answers.len() {
        next = put_decade(&mut *out, next, answers, tens, d);
        d = next_decade(d);
        tens += 1;
    }
    next
}

// A line for each answer, from the buffer's start.
pub(crate) fn put_answers(out: &mut [u8], answers: &[u8]) -> usize
    requires { length answers.now ≤ most_answers }
    ensures { Put out.old out.new 0 result (answer_lines answers.now) }
{
    // a buffer that surely has room for all the lines needs no test at each
    if answers.len() * ANSWER_LINE <= out.len() {
        return put_answers_in(&mut *out, answers);
    }
    let mut w = Writer::new(out);
    for i in 0..answers.len() {
        put_answer(&mut w, i as u32, answers[i]);
    }
    w.at
}

// A C line for each controller.
pub(crate) fn put_controllers(w: &mut Writer, n: u8, rows: [Row; LIMIT])
    ensures { Wrote w.old w.new (controller_lines n rows) }
{
    for i in 0..n as usize {
        let row = row_at(rows, i);
        put_controller(w, i as u32 + 1, row);
    }
}

// The T line.
pub(crate) fn put_messages(w: &mut Writer, sent: MessageCounts)
    ensures { Wrote w.old w.new (message_line sent) }
{
    w.byte(b'T');
    w.field(sent.vote);
    w.field(sent.ack);
    w.field(sent.help);
    w.field(sent.helped);
    w.byte(b'\n')
}
