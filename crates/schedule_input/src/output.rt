// What the programs print.
ghost use Rattle.std.specs.Prelude.{◌≡◌};
ghost use Rattle.text.specs.Writing.{Rendered, WrittenWhole};
ghost use Rattle.schedule_text.specs.Texts.{write_text};
ghost use Rattle.schedule_input.specs.Input.{records_output, text_or, text_output};

use crate::LONGEST_TEXT;
use crate::forms::records_in;
use crate::refusals::{write_refused_line, write_refused_record};
use bench_report::LONGEST_SCHEDULE;
use schedule_text::{TurnError, write};
use text::{write_bytes, write_refusal};

// The records of a schedule in either form; or the refusal.
pub fn render_records(s: &[u8], out: &mut [u8]) -> usize
    ensures { Rendered (records_output s.now) out.old out.new result }
{
    if LONGEST_TEXT < s.len() {
        return write_refusal(&mut *out, 1);
    }
    let mut records = [0u8; LONGEST_SCHEDULE];
    match records_in(s, &mut records) {
        Ok(n) => write_bytes(&mut *out, &records[..n]),
        Err(TurnError::Refused { at, by }) => write_refused_line(&mut *out, s, at, by),
        Err(TurnError::NoRoom) => write_refusal(&mut *out, 1),
    }
}

// Writes the text of records, whole or not at all; or the refusal.
fn write_text(out: &mut [u8], records: &[u8]) -> usize
    ensures { WrittenWhole (text_or (write_text records.now)) out.old out.new result }
{
    match write(records, &mut *out) {
        Ok(n) => n,
        Err(TurnError::Refused { at, by }) => write_refused_record(&mut *out, at, by),
        Err(TurnError::NoRoom) => 0,
    }
}

// The text of a schedule in either form; or the refusal.
pub fn render_text(s: &[u8], out: &mut [u8]) -> usize
    ensures { Rendered (text_output s.now) out.old out.new result }
{
    if LONGEST_TEXT < s.len() {
        return write_refusal(&mut *out, 1);
    }
    let mut records = [0u8; LONGEST_SCHEDULE];
    match records_in(s, &mut records) {
        Ok(n) => write_text(&mut *out, &records[..n]),
        Err(TurnError::Refused { at, by }) => write_refused_line(&mut *out, s, at, by),
        Err(TurnError::NoRoom) => write_refusal(&mut *out, 1),
    }
}
