// The fields of telegrams: as they stand on a record, which of them are listed, and the telegram that they stand for.
ghost use Rattle.std.specs.Prelude.{◌≡◌, ◌≤◌, length};
ghost use Rattle.model.specs.Refusals.{numbered};
ghost use Rattle.records.specs.Codec.{fields_by};
ghost use Rattle.records.specs.Frames.{if_listed};
ghost use Rattle.message_record.specs.declared.MessageBody.TheVariants.{Votes, Ballot};
ghost use Rattle.message_record.specs.Telegrams.{formed, fields_in, votes_at, more_at, no_more, telegram_form, listed_in};
ghost use Rattle.message_record.specs.Telegrams.{message_of, ballot_message_of, telegram_of, plain_fields, ballot_fields, fields_of};

use crate::forms::plain_length;
use message_record::{BallotFields, Fields, MessageBody, MessageWidth, TelegramForm};
use model::{BallotKind, BallotMessage, Kind, Message, Outcome, Refusal, Telegram};
use records::{byte_after, number2, number4};
use votes::VoteSet;

// The votes as they stand on a record of that width.
fn votes_in(width: MessageWidth, s: &[u8]) -> VoteSet
    ensures { result ≡ votes_at width s.now }
{
    match width {
        MessageWidth::Short => VoteSet {
            known: number2(s, 12),
            willing: number2(s, 14),
        },
        MessageWidth::Long => VoteSet {
            known: number4(s, 12),
            willing: number4(s, 16),
        },
    }
}

// The four bytes from a place on.
fn more_at(s: &[u8], at: usize) -> BallotFields
    ensures { result ≡ more_at s.now at }
{
    BallotFields {
        ballot: byte_after(s, at, 0),
        last: byte_after(s, at, 1),
        word: byte_after(s, at, 2),
        spare: byte_after(s, at, 3),
    }
}

fn no_more() -> BallotFields
    ensures { result ≡ no_more }
{
    BallotFields {
        ballot: 0,
        last: 0,
        word: 0,
        spare: 0,
    }
}

// The four bytes more of a ballot, if that form has them.
fn more_in(width: MessageWidth, body: MessageBody, s: &[u8]) -> BallotFields
    ensures { result ≡ (fields_in (fields_by (telegram_form (formed width body)) s.now)).more }
{
    match body {
        MessageBody::Votes => no_more(),
        MessageBody::Ballot => more_at(s, plain_length(width)),
    }
}

// The fields as they stand on a record of that form.
pub(crate) fn fields_in(form: TelegramForm, s: &[u8]) -> Fields
    requires { 12 ≤ length s.now }
    ensures { result ≡ fields_in (fields_by (telegram_form form) s.now) }
{
    let width = form.width;
    let body = form.body;
    let votes = votes_in(width, s);
    let more = more_in(width, body, s);
    Fields {
        kind: s[2],
        n: s[3],
        f: s[4],
        from: s[5],
        to: s[6],
        spare: s[7],
        order: number4(s, 8),
        votes,
        more,
    }
}

// Question 3 of a telegram without a ballot, and the telegram.
fn message_of(x: Fields) -> Result<Message, Refusal>
    ensures { numbered result ≡ if_listed (listed_in Votes x) (message_of x) }
{
    let kind = Kind::try_from(x.kind)?;
    if x.spare != 0 {
        return Err(Refusal::Listed);
    }
    let votes = x.votes;
    Ok(Message {
        kind,
        n: x.n,
        f: x.f,
        from: x.from,
        to: x.to,
        order: x.order,
        votes,
    })
}

fn ballot_message_of(x: Fields) -> Result<BallotMessage, Refusal>
    ensures { numbered result ≡ if_listed (listed_in Ballot x) (ballot_message_of x) }
{
    let kind = BallotKind::try_from(x.kind)?;
    if x.spare != 0 {
        return Err(Refusal::Listed);
    }
    let word = Outcome::try_from(x.more.word)?;
    if x.more.spare != 0 {
        return Err(Refusal::Listed);
    }
    let votes = x.votes;
    Ok(BallotMessage {
        kind,
        n: x.n,
        f: x.f,
        from: x.from,
        to: x.to,
        order: x.order,
        votes,
        ballot: x.more.ballot,
        last: x.more.last,
        word,
    })
}

// The telegram that the fields stand for. Question 3: are kind and word listed values, and is what must be 0?
pub(crate) fn telegram_of(body: MessageBody, x: Fields) -> Result<Telegram, Refusal>
    ensures { numbered result ≡ if_listed (listed_in body x) (telegram_of body x) }
{
    match body {
        MessageBody::Votes => Ok(Telegram::Plain(message_of(x)?)),
        MessageBody::Ballot => Ok(Telegram::OfBallot(ballot_message_of(x)?)),
    }
}

fn plain_fields(m: Message) -> Fields
    ensures { result ≡ plain_fields m }
{
    let kind = m.kind;
    let votes = m.votes;
    let more = no_more();
    Fields {
        kind: u8::from(kind),
        n: m.n,
        f: m.f,
        from: m.from,
        to: m.to,
        spare: 0,
        order: m.order,
        votes,
        more,
    }
}

fn ballot_fields(b: BallotMessage) -> Fields
    ensures { result ≡ ballot_fields b }
{
    let kind = b.kind;
    let votes = b.votes;
    let word = b.word;
    let more = BallotFields {
        ballot: b.ballot,
        last: b.last,
        word: u8::from(word),
        spare: 0,
    };
    Fields {
        kind: u8::from(kind),
        n: b.n,
        f: b.f,
        from: b.from,
        to: b.to,
        spare: 0,
        order: b.order,
        votes,
        more,
    }
}

// The fields of a telegram.
pub(crate) fn fields_of(t: Telegram) -> Fields
    ensures { result ≡ fields_of t }
{
    match t {
        Telegram::Plain(m) => plain_fields(m),
        Telegram::OfBallot(b) => ballot_fields(b),
    }
}
