// What the line program prints of the acts that it is given, in a lent buffer.
#![tactic(auto)]

ghost use Rattle.std.specs.Prelude.{◌≡◌, ◌∷◌, [], ◌++◌, ◌≤◌, length};
ghost use Rattle.text.specs.Text.{ascii, decimal, line, lines};
ghost use Rattle.text.specs.Writers.{Wrote};
ghost use Rattle.text.specs.Writing.{Put, Rendered};
ghost use Rattle.line_output.specs.Output.{act_of, shown, act_line, most, output_of};

use line::{Act, Answer, new_line, perform, refusal};
use text::{Writer, write_refusal};

// The most acts that are run.
pub const MOST: usize = 4096;

// A byte as an act.
fn act_of(b: u8) -> Act
    ensures { result ≡ act_of b }
{
    if b == 0 {
        return Act::Turn;
    }
    Act::Call(b)
}

// A space and an answer.
fn put_answer(w: &mut Writer, answer: Answer)
    ensures { Wrote w.old w.new (ascii " " ++ shown answer) }
{
    match answer {
        Answer::Accepted => w.field(u32::from(refusal(answer))),
        Answer::Refused => w.field(u32::from(refusal(answer))),
        Answer::Served(lock) => w.field(u32::from(lock)),
        Answer::Nobody => w.bytes(b" -"),
    }
}

// The line of an act.
fn put_act(w: &mut Writer, i: u32, answer: Answer)
    ensures { Wrote w.old w.new (line (decimal i ∷ shown answer ∷ [])) }
{
    w.number(i);
    put_answer(w, answer);
    w.byte(b'\n')
}

// A line for each act on a new line.
fn put_acts(out: &mut [u8], s: &[u8]) -> usize
    requires { length s.now ≤ most }
    ensures { Put out.old out.new 0 result (lines (length s.now) (act_line s.now)) }
{
    let mut w = Writer::new(out);
    let mut line = new_line();
    for i in 0..s.len() {
        let done = perform(line, act_of(s[i]));
        line = done.line;
        put_act(&mut w, i as u32, done.answer);
    }
    w.at
}

// The length of those lines: they are written where no byte is kept.
fn measure(s: &[u8]) -> usize
    requires { length s.now ≤ most }
    ensures { result ≡ length (lines (length s.now) (act_line s.now)) }
{
    let mut none = [0u8; 0];
    put_acts(&mut none, s)
}

// Writes the program's whole output for these acts to the front of the buffer and answers its length; 0, and nothing written, if it does not fit.
pub fn render(s: &[u8], out: &mut [u8]) -> usize
    ensures { Rendered (output_of s.now) out.old out.new result }
{
    if MOST < s.len() {
        return write_refusal(&mut *out, 1);
    }
    if out.len() < measure(s) {
        return 0;
    }
    put_acts(&mut *out, s)
}
