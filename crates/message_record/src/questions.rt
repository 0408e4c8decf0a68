// What is asked of a telegram, read or to be written.
ghost use Rattle.std.specs.Prelude.{◌≡◌};
ghost use Rattle.model.specs.Questions.{first_no};
ghost use Rattle.model.specs.Refusals.{reply_of};
ghost use Rattle.message_record.specs.Messages.{bits_in_range, knows_for_kind, suits, about_head, about_message};
ghost use Rattle.message_record.specs.Telegrams.{about_telegram};

use crate::ballots::ballot_question;
use model::{Kind, Message, Refusal, Telegram};

// Question 9: "No bit above n".
fn bits_in_range(m: Message) -> bool
    ensures { result ≡ bits_in_range m }
{
    let set = m.votes;
    ground::none_above(set.known, m.n) && ground::none_above(set.willing, m.n)
}

// Question 9: whom a vote set of that kind knows.
fn knows_for_kind(kind: Kind, from: u8, known: u32) -> bool
    ensures { result ≡ knows_for_kind kind from known }
{
    match kind {
        Kind::Vote => known == ground::insert(0, from),
        Kind::Ack => ground::has(known, from),
        Kind::Help => known == 0,
        Kind::Helped => ground::has(known, from),
    }
}

// Question 9: does the vote set suit the kind?
pub fn suits(m: Message) -> bool
    ensures { result ≡ suits m }
{
    if !bits_in_range(m) {
        return false;
    }
    let set = m.votes;
    if !ground::within(set.willing, set.known) {
        return false;
    }
    let kind = m.kind;
    knows_for_kind(kind, m.from, set.known)
}

// Questions 4, 7 and 8, which are asked of every telegram.
// stays (promise): `about_head n f from to order` and the theorems over `Message` and `BallotMessage` name these fields one by one; neither has a head of its own.
pub(crate) fn head_question(n: u8, f: u8, from: u8, to: u8, order: u32) -> Result<(), Refusal>
    ensures { reply_of result ≡ first_no (about_head n f from to order) }
{
    if !model::sizes_in_range(n, f) {
        return Err(Refusal::Sizes);
    }
    if !model::different_controllers(n, from, to) {
        return Err(Refusal::Controllers);
    }
    if order < 1 {
        return Err(Refusal::OrderNumber);
    }
    Ok(())
}

// These and 9 and 10.
fn question(m: Message) -> Result<(), Refusal>
    ensures { reply_of result ≡ first_no (about_message m) }
{
    head_question(m.n, m.f, m.from, m.to, m.order)?;
    if !suits(m) {
        return Err(Refusal::VoteSet);
    }
    let kind = m.kind;
    if !model::route(m.f, kind, m.from, m.to) {
        return Err(Refusal::Route);
    }
    Ok(())
}

// What is asked of a telegram of either body.
pub fn telegram_question(t: Telegram) -> Result<(), Refusal>
    ensures { reply_of result ≡ first_no (about_telegram t) }
{
    match t {
        Telegram::Plain(m) => question(m),
        Telegram::OfBallot(b) => ballot_question(b),
    }
}
