// What the levels program prints of two ranges, in a lent buffer.
#![tactic(auto)]

ghost use Rattle.std.specs.Prelude.{◌≡◌, ◌+◌, ◌≤◌, length};
ghost use Rattle.model.specs.Refusals.{numbered};
ghost use Rattle.text.specs.Writing.{fitted, fitted_length, Rendered};
ghost use Rattle.levels_text.specs.Output.{range_at, words, willingness_in, output_of};

use levels::{Range, Willingness, judge};
use model::Refusal;
use records::number4;
use text::{write_bytes, write_refusal};

// No output is longer.
pub const ROOM: usize = 20;

// The range whose low and high level stand there.
fn range_at(s: &[u8], at: usize) -> Range
    requires { at + 8 ≤ length s.now }
    ensures { result ≡ range_at s.now at }
{
    Range {
        low: number4(s, at),
        high: number4(s, at + 4),
    }
}

// The answer to an input: above low, above high, below low, below high.
#[tactic(auto, unfolding(crate::specs::Output::willingness_in))]
fn answer_to(s: &[u8]) -> Result<Willingness, Refusal>
    ensures { numbered result ≡ willingness_in s.now }
{
    if s.len() != 16 {
        return Err(Refusal::Length);
    }
    let above = range_at(s, 0);
    let below = range_at(s, 8);
    judge(above, below)
}

// Writes the answer in words, with a newline, to the front of the buffer and answers its length; 0, and nothing written, if it does not fit.
#[tactic(auto, unfolding(crate::specs::Output::words))]
fn write_words(out: &mut [u8], answer: Result<Willingness, Refusal>) -> usize
    ensures value { result ≡ fitted_length (words (numbered answer)) out.old }
    ensures out_after { out.new ≡ fitted (words (numbered answer)) out.old }
{
    match answer {
        Ok(Willingness::Willing) => write_bytes(&mut *out, b"willing\n"),
        Ok(Willingness::CertainlyUnwilling) => write_bytes(&mut *out, b"certainly unwilling\n"),
        Ok(Willingness::Unsure) => write_bytes(&mut *out, b"unsure\n"),
        Err(q) => write_refusal(&mut *out, u32::from(u8::from(q))),
    }
}

// The same of the program's whole output for an input.
pub fn render(input: &[u8], out: &mut [u8]) -> usize
    ensures { Rendered (output_of input.now) out.old out.new result }
{
    write_words(&mut *out, answer_to(input))
}
