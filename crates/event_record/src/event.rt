// Event records: their reader and writer.
ghost use Rattle.std.specs.Prelude.{◌≡◌, [], ◌∷◌, length};
ghost use Rattle.model.specs.Refusals.{numbered, reply_of};
ghost use Rattle.records.specs.Codec.{fields_by, write_reply, writes};
ghost use Rattle.records.specs.Promises.{Promises, AskedInSequence};
ghost use Rattle.event_record.specs.Events.{fields_in, ballot_fields, event_fields, fields_of, event_form, events, event_length, read_event, record_bytes, event_bytes};

use crate::Fields;
use crate::kinds::listed_act;
use model::{Act, BallotEvent, Event, Refusal};
use records::{frame_question, number4, write_record};

// The fields as they stand on the record.
fn fields_in(s: &[u8]) -> Fields
    requires { length s.now ≡ event_length }
    ensures { result ≡ fields_in (fields_by event_form s.now) }
{
    Fields {
        kind: s[2],
        a: s[3],
        b: s[4],
        c: s[5],
        value: number4(s, 6),
    }
}

// The questions of reading, in their sequence: 1, 2 and 3.
pub fn read_event(s: &[u8]) -> Result<Act, Refusal>
    ensures { numbered result ≡ read_event s.now }
{
    frame_question(s, Event::LENGTH, Event::MARK)?;
    listed_act(fields_in(s)).ok_or(Refusal::Listed)
}

// The fields of an event of a ballot.
fn ballot_fields(event: BallotEvent) -> Fields
    ensures { result ≡ ballot_fields event }
{
    let unused = Fields::UNUSED;
    match event {
        BallotEvent::Open { id, ballot } => Fields {
            kind: 10,
            a: id,
            value: ballot,
            ..unused
        },
        BallotEvent::Carry {
            from,
            to,
            kind,
            ballot,
        } => Fields {
            kind: 3,
            a: from,
            b: to,
            c: u8::from(kind),
            value: ballot,
        },
    }
}

// The fields of an event.
fn event_fields(e: Event) -> Fields
    ensures { result ≡ event_fields e }
{
    let unused = Fields::UNUSED;
    match e {
        Event::Lock { n, f, own } => Fields {
            a: n,
            b: f,
            c: u8::from(own),
            ..unused
        },
        Event::Order { number } => Fields {
            kind: 1,
            value: number,
            ..unused
        },
        Event::Cast {
            id,
            willing,
            target,
        } => Fields {
            kind: 2,
            a: id,
            b: u8::from(willing),
            value: target,
            ..unused
        },
        Event::Deliver { from, to, kind } => Fields {
            kind: 3,
            a: from,
            b: to,
            c: u8::from(kind),
            ..unused
        },
        Event::Timeout { id } => Fields {
            kind: 4,
            a: id,
            ..unused
        },
        Event::Decide { id, to_move } => Fields {
            kind: 5,
            a: id,
            b: u8::from(to_move),
            ..unused
        },
        Event::Stop { id } => Fields {
            kind: 6,
            a: id,
            ..unused
        },
        Event::Save { id } => Fields {
            kind: 7,
            a: id,
            ..unused
        },
        Event::Restore { id } => Fields {
            kind: 8,
            a: id,
            ..unused
        },
        Event::OfBallots { event } => ballot_fields(event),
    }
}

// The fields of an act: of its event, or of a step back.
pub fn fields_of(act: Act) -> Fields
    ensures { result ≡ fields_of act }
{
    let unused = Fields::UNUSED;
    match act {
        Act::Play(e) => event_fields(e),
        Act::Back => Fields { kind: 9, ..unused },
    }
}

// The ten bytes of a record with these fields.
pub fn record_bytes(x: Fields) -> [u8; 10]
    ensures { result ≡ record_bytes x }
{
    let mark = Event::MARK.to_be_bytes();
    let value = x.value.to_be_bytes();
    [
        mark[2], mark[3], x.kind, x.a, x.b, x.c, value[0], value[1], value[2], value[3],
    ]
}

// The ten bytes of an act.
fn event_bytes(act: Act) -> [u8; 10]
    ensures { result ≡ event_bytes act }
{
    record_bytes(fields_of(act))
}

// There is nothing to ask of an event; a buffer of another length is untouched.
pub fn write_event(out: &mut [u8], act: Act) -> Result<(), Refusal>
    ensures { (reply_of result ≡ write_reply events out.old act) × (out.new ≡ writes events out.old act) }
{
    let content = event_bytes(act);
    write_record(out, &content, Ok(()))
}

// What is promised of these records: reading answers as the questions do, both round trips, and a refused write's buffer.
pub fn round_trips()
    ensures { Promises events }
{}

// In which sequence the questions are put: "Reading an event record puts 1 to 3", and writing asks 1 of the buffer.
pub fn asked_in_sequence()
    ensures { AskedInSequence events (λ k. 1 ∷ 2 ∷ 3 ∷ []) (λ k. 1 ∷ []) }
{}
