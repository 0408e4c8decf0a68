// Text from records.
ghost use Rattle.std.specs.Prelude.{◌≡◌};
ghost use Rattle.schedule_text.specs.Texts.{write_text, answer_to, buffer_after};
ghost use Rattle.schedule_text.specs.Turning.{Turns};

use crate::TurnError;
use crate::forms::put_line;
use event_record::fields_of;
use model::{Event, answer_number};
use schedule_reader::record_at;
use text::Writer;

// The text of a schedule, as far as the buffer goes; or the first record that is refused.
fn put_text(out: &mut [u8], s: &[u8]) -> Result<usize, TurnError>
    ensures { Turns (write_text s.now) out.old out.new result }
{
    let mut w = Writer::new(out);
    let mut at: usize = 0;
    let mut k: usize = 0;
    while at < s.len() {
        let read = record_at(s, at);
        let Ok(act) = read else {
            return Err(TurnError::Refused {
                at: k,
                by: usize::from(answer_number(read)),
            });
        };
        put_line(&mut w, fields_of(act));
        at += Event::LENGTH;
        k += 1;
    }
    Ok(w.at)
}

// Writes the text of a schedule to the front of the buffer, all of it or nothing.
pub fn write(s: &[u8], out: &mut [u8]) -> Result<usize, TurnError>
    ensures value { result ≡ answer_to (write_text s.now) out.old }
    ensures out_after { out.new ≡ buffer_after (write_text s.now) out.old }
{
    let mut none = [0u8; 0];
    let length = put_text(&mut none, s)?;
    if out.len() < length {
        return Err(TurnError::NoRoom);
    }
    put_text(&mut *out, s)
}
