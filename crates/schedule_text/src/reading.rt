// Records from text.
ghost use Rattle.std.specs.Prelude.{◌≡◌, Ok};
ghost use Rattle.text.specs.Writers.{Wrote};
ghost use Rattle.schedule_text.specs.Texts.{ended, read_line, bytes_of_read, read_text, answer_to, buffer_after};
ghost use Rattle.schedule_text.specs.Turning.{Turns};

use crate::forms::{row_of, slot_in, value_in, with_field};
use crate::{Slot, TurnError, Unexpected};
use event_record::{Fields, record_bytes};
use text::Writer;
use words::{Class, end_of_run, next_word, uncommented};

// A line that ends there: it stands for the fields of a record, or for nothing; or a word more was expected.
#[tactic(auto, unfolding(crate::specs::Texts::ended))]
fn ended(slot: Slot, i: usize, x: Fields) -> Result<Option<Fields>, Unexpected>
    ensures { result ≡ ended slot i x }
{
    match slot {
        Slot::Verb => Ok(None),
        Slot::Own | Slot::End => Ok(Some(x)),
        Slot::A
        | Slot::B
        | Slot::Number
        | Slot::Target
        | Slot::Willing
        | Slot::Word
        | Slot::Telegram => Err(Unexpected(i)),
    }
}

// What a line without its comment stands for.
fn read_line(l: &[u8]) -> Result<Option<Fields>, Unexpected>
    ensures { result ≡ read_line l.now }
{
    let mut x = Fields::UNUSED;
    let mut at: usize = 0;
    let mut i: usize = 0;
    // stays (no plainer): each turn goes on to the next word of the line, and ends where there is none
    loop {
        let slot = slot_in(row_of(x.kind, x.c), i);
        let word = next_word(l, at);
        let from = word.from;
        let to = word.to;
        if from == to {
            return ended(slot, i, x);
        }
        let v = value_in(slot, &l[from..to]).ok_or(Unexpected(i))?;
        x = with_field(slot, v, x);
        at = to;
        i += 1;
    }
}

// The record of a line, if it stands for one.
fn put_read(w: &mut Writer, fields: Option<Fields>)
    ensures { Wrote w.old w.new (bytes_of_read (Ok fields)) }
{
    match fields {
        Some(x) => w.bytes(&record_bytes(x)),
        None => w.bytes(b""),
    }
}

// The records of a text, as far as the buffer goes; or the first line that is refused.
fn put_records(out: &mut [u8], text: &[u8]) -> Result<usize, TurnError>
    ensures { Turns (read_text text.now) out.old out.new result }
{
    let mut w = Writer::new(out);
    let mut at: usize = 0;
    let mut line: usize = 1;
    while at <= text.len() {
        let end = end_of_run(text, at, Class::Line);
        match read_line(uncommented(&text[at..end])) {
            Ok(fields) => put_read(&mut w, fields),
            Err(word) => {
                return Err(TurnError::Refused {
                    at: line,
                    by: word.0,
                });
            }
        }
        at = end + 1;
        line += 1;
    }
    Ok(w.at)
}

// Writes the records of a text to the front of the buffer, all of them or none.
pub fn read(text: &[u8], out: &mut [u8]) -> Result<usize, TurnError>
    ensures value { result ≡ answer_to (read_text text.now) out.old }
    ensures out_after { out.new ≡ buffer_after (read_text text.now) out.old }
{
    let mut none = [0u8; 0];
    let length = put_records(&mut none, text)?;
    if out.len() < length {
        return Err(TurnError::NoRoom);
    }
    put_records(&mut *out, text)
}
