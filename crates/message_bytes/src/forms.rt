// The forms of telegrams: by which one bytes are read, and in which one a telegram is written.
ghost use Rattle.std.specs.Prelude.{◌<◌, ◌≡◌};
ghost use Rattle.model.specs.Questions.{first_no};
ghost use Rattle.model.specs.Refusals.{reply_of};
ghost use Rattle.records.specs.Codec.{form_length, record_length};
ghost use Rattle.records.specs.Frames.{frame_questions};
ghost use Rattle.message_record.specs.declared.MessageBody.TheVariants.{Votes, Ballot};
ghost use Rattle.message_record.specs.Telegrams.{formed, size_of, body_of, width_for, suits_width, mark_of, telegram_form, form_of_twenty, form_for, form_of, telegrams};

use message_record::{MessageBody, MessageWidth, TelegramForm};
use model::{Refusal, Telegram};
use records::frame_question;

// Of 20 bytes the mark says which form they are.
fn form_of_twenty(mark: u32) -> TelegramForm
    ensures { result ≡ form_of_twenty mark }
{
    if mark == Telegram::SHORT_MARK {
        return TelegramForm {
            width: MessageWidth::Short,
            body: MessageBody::Ballot,
        };
    }
    TelegramForm {
        width: MessageWidth::Long,
        body: MessageBody::Votes,
    }
}

// By which form a slice of that length and mark is read.
pub(crate) fn form_on(length: usize, mark: u32) -> TelegramForm
    ensures { result ≡ form_for length mark }
{
    if length == Telegram::LONG_BALLOT_LENGTH {
        return TelegramForm {
            width: MessageWidth::Long,
            body: MessageBody::Ballot,
        };
    }
    if length == Telegram::LONG_LENGTH {
        return form_of_twenty(mark);
    }
    TelegramForm {
        width: MessageWidth::Short,
        body: MessageBody::Votes,
    }
}

// How many controllers the telegram's lock has.
pub(crate) fn size_of(t: Telegram) -> u8
    ensures { result ≡ size_of t }
{
    match t {
        Telegram::Plain(m) => m.n,
        Telegram::OfBallot(b) => b.n,
    }
}

fn body_of(t: Telegram) -> MessageBody
    ensures { result ≡ body_of t }
{
    match t {
        Telegram::Plain(_) => MessageBody::Votes,
        Telegram::OfBallot(_) => MessageBody::Ballot,
    }
}

fn width_for(n: u8) -> MessageWidth
    ensures { result ≡ width_for n }
{
    if n <= Telegram::SHORT_LIMIT {
        return MessageWidth::Short;
    }
    MessageWidth::Long
}

// In which form a telegram is written.
pub(crate) fn form_of(t: Telegram) -> TelegramForm
    ensures { result ≡ form_of t }
{
    TelegramForm {
        width: width_for(size_of(t)),
        body: body_of(t),
    }
}

// Question 4, of the form: is its width the one for n controllers?
pub(crate) fn suits_width(width: MessageWidth, n: u8) -> bool
    ensures { result ≡ suits_width width n }
{
    match width {
        MessageWidth::Short => n <= Telegram::SHORT_LIMIT,
        MessageWidth::Long => Telegram::SHORT_LIMIT < n,
    }
}

// The length without a ballot's four bytes more, and with them.
pub(crate) fn plain_length(width: MessageWidth) -> usize
    ensures { result ≡ form_length (telegram_form (formed width Votes)) }
{
    match width {
        MessageWidth::Short => Telegram::SHORT_LENGTH,
        MessageWidth::Long => Telegram::LONG_LENGTH,
    }
}

fn ballot_length(width: MessageWidth) -> usize
    ensures { result ≡ form_length (telegram_form (formed width Ballot)) }
{
    match width {
        MessageWidth::Short => Telegram::SHORT_BALLOT_LENGTH,
        MessageWidth::Long => Telegram::LONG_BALLOT_LENGTH,
    }
}

fn length_of(width: MessageWidth, body: MessageBody) -> usize
    ensures { result ≡ form_length (telegram_form (formed width body)) }
{
    match body {
        MessageBody::Votes => plain_length(width),
        MessageBody::Ballot => ballot_length(width),
    }
}

// How long a telegram is.
pub fn telegram_length(t: Telegram) -> usize
    ensures { (result ≡ record_length telegrams t) × (result < 256) }
{
    let form = form_of(t);
    let width = form.width;
    let body = form.body;
    length_of(width, body)
}

pub(crate) fn mark_of(width: MessageWidth) -> u32
    ensures { result ≡ mark_of width }
{
    match width {
        MessageWidth::Short => Telegram::SHORT_MARK,
        MessageWidth::Long => Telegram::LONG_MARK,
    }
}

// Questions 1 and 2, by that form.
pub(crate) fn frame_in(form: TelegramForm, s: &[u8]) -> Result<(), Refusal>
    ensures { reply_of result ≡ first_no (frame_questions (form_length (telegram_form form)) (mark_of form.width) s.now) }
{
    let width = form.width;
    let body = form.body;
    frame_question(s, length_of(width, body), mark_of(width))
}
