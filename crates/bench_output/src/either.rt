// A schedule in either form.
ghost use Rattle.text.specs.Writing.{Rendered};
ghost use Rattle.bench_output.specs.Output.{printed_of};

use crate::render;
use bench_report::LONGEST_SCHEDULE;
use schedule_input::{LONGEST_TEXT, records_in, write_refused_line};
use schedule_text::TurnError;
use text::write_refusal;

// The program's whole output, as `render` writes that of records: a text is turned into its records first, and of one that is refused the line is named.
pub fn render_either(s: &[u8], out: &mut [u8]) -> usize
    ensures { Rendered (printed_of s.now) out.old out.new result }
{
    if LONGEST_TEXT < s.len() {
        return write_refusal(&mut *out, 1);
    }
    let mut records = [0u8; LONGEST_SCHEDULE];
    match records_in(s, &mut records) {
        Ok(n) => render(&records[..n], &mut *out),
        Err(TurnError::Refused { at, by }) => write_refused_line(&mut *out, s, at, by),
        Err(TurnError::NoRoom) => write_refusal(&mut *out, 1),
    }
}
