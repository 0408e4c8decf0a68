// What the dues program prints, in a lent buffer.
ghost use Rattle.std.specs.Prelude.{◌≡◌};
ghost use Rattle.model.specs.Refusals.{numbered};
ghost use Rattle.text.specs.Writing.{fitted, fitted_length, Rendered};
ghost use Rattle.dues.specs.Printed.{totals_line, answer_line, output_of};

use crate::Kept;
use crate::pieces::last_answer;
use model::Refusal;
use tariff::Shares;
use text::{LINE, Writer, write_line, write_refusal};

// No output is longer: `always-fits`, in specs/PrintedLaws.
pub const LONGEST_OUTPUT: usize = LINE;

// The line of both totals, to the front of the buffer, whole or not at all.
fn write_totals(out: &mut [u8], t: Shares) -> usize
    ensures value { result ≡ fitted_length (totals_line t) out.old }
    ensures out_after { out.new ≡ fitted (totals_line t) out.old }
{
    let mut line = [0u8; LINE];
    let mut w = Writer::new(&mut line);
    w.number(t.upper);
    w.field(t.lower);
    w.byte(b'\n');
    let end = w.at;
    write_line(&mut *out, line, end)
}

#[tactic(auto, unfolding(crate::specs::Printed::answer_line))]
fn write_answer(out: &mut [u8], answer: Result<Shares, Refusal>) -> usize
    ensures value { result ≡ fitted_length (answer_line (numbered answer)) out.old }
    ensures out_after { out.new ≡ fitted (answer_line (numbered answer)) out.old }
{
    match answer {
        Ok(t) => write_totals(&mut *out, t),
        Err(q) => write_refusal(&mut *out, u32::from(u8::from(q))),
    }
}

// Writes the program's whole output for a sheet to the front of the buffer and answers its length; 0, and nothing written, if it does not fit. The sheet comes
// in pieces, of which the last is given, and what is kept of the others: `in_pieces` says that this is the output for all of it.
pub fn render(kept: Kept, s: &[u8], out: &mut [u8]) -> usize
    ensures { Rendered (output_of kept s.now) out.old out.new result }
{
    write_answer(&mut *out, last_answer(kept, s))
}
