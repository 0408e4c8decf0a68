// The reader and the writer of telegrams; `message_record` says what stands on the record and what is asked of it.
#![tactic(auto)]

mod forms;
mod layout;
mod writing;

ghost use Rattle.std.specs.Prelude.{◌≡◌};
ghost use Rattle.model.specs.Questions.{first_no};
ghost use Rattle.model.specs.Refusals.{numbered, reply_of};
ghost use Rattle.records.specs.Codec.{reads, write_reply, writes};
ghost use Rattle.message_record.specs.Telegrams.{asked_in, telegrams};

pub use forms::telegram_length;
use forms::{form_of, form_on, frame_in, size_of, suits_width};
use layout::{fields_in, fields_of, telegram_of};
use message_record::{MessageWidth, telegram_question};
use model::{Refusal, Telegram};
use records::number2;
use writing::write_in;

// All questions of a telegram in a form of that width, which question 4 asks about first.
fn question_in(width: MessageWidth, t: Telegram) -> Result<(), Refusal>
    ensures { reply_of result ≡ first_no (asked_in width t) }
{
    if !suits_width(width, size_of(t)) {
        return Err(Refusal::Sizes);
    }
    telegram_question(t)
}

// The questions of reading, in their sequence: 1, 2 and 3 of the bytes, the rest of the telegram.
pub fn read_telegram(s: &[u8]) -> Result<Telegram, Refusal>
    ensures { numbered result ≡ reads telegrams s.now }
{
    let form = form_on(s.len(), number2(s, 0));
    frame_in(form, s)?;
    let body = form.body;
    let width = form.width;
    let t = telegram_of(body, fields_in(form, s))?;
    question_in(width, t)?;
    Ok(t)
}

// A refusal leaves the buffer untouched. The record's length follows the kind and the number of controllers.
pub fn write_telegram(out: &mut [u8], t: Telegram) -> Result<(), Refusal>
    ensures { (reply_of result ≡ write_reply telegrams out.old t) × (out.new ≡ writes telegrams out.old t) }
{
    let form = form_of(t);
    let width = form.width;
    write_in(out, form, fields_of(t), question_in(width, t))
}
