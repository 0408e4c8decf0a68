// The table of kinds at the fields of an event: which values are listed (flags and kinds among them are, and what is not used is 0), and the event, or the
// step back, that they stand for.
ghost use Rattle.std.specs.Prelude.{◌≡◌, ◌&&◌};
ghost use Rattle.std.specs.Bool.{then_some};
ghost use Rattle.model.specs.declared.Event.TheVariants.{OfBallots};
ghost use Rattle.model.specs.declared.BallotEvent.TheVariants.{Open};
ghost use Rattle.records.specs.Codes.{is_flag, unused};
ghost use Rattle.event_record.specs.Events.{delivery_listed, delivery_of, listed_act};

use crate::Fields;
use model::{Act, BallotEvent, BallotKind, Event, Kind};
use records::{flag_of, is_flag};

// Are c and the value not used?
fn rest_unused(c: u8, value: u32) -> bool
    ensures { result ≡ (unused c && unused value) }
{
    c == 0 && value == 0
}

fn lock_listed(c: u8, value: u32) -> bool
    ensures { result ≡ (is_flag c && unused value) }
{
    is_flag(c) && value == 0
}

fn order_listed(a: u8, b: u8, c: u8) -> bool
    ensures { result ≡ (unused a && unused b && unused c) }
{
    if a != 0 {
        return false;
    }
    b == 0 && c == 0
}

fn vote_listed(b: u8, c: u8) -> bool
    ensures { result ≡ (is_flag b && unused c) }
{
    is_flag(b) && c == 0
}

// The delivery of a telegram: a plain one, or one of a ballot.
fn delivery(a: u8, b: u8, c: u8, value: u32) -> Option<Event>
    ensures { result ≡ then_some (delivery_listed c value) (delivery_of a b c value) }
{
    if let Ok(kind) = Kind::try_from(c) {
        let event = Event::Deliver {
            from: a,
            to: b,
            kind,
        };
        return (value == 0).then_some(event);
    }
    let Ok(kind) = BallotKind::try_from(c) else {
        return None;
    };
    let event = BallotEvent::Carry {
        from: a,
        to: b,
        kind,
        ballot: value,
    };
    Some(Event::OfBallots { event })
}

fn decision_listed(b: u8, c: u8, value: u32) -> bool
    ensures { result ≡ (is_flag b && unused c && unused value) }
{
    is_flag(b) && rest_unused(c, value)
}

fn other_listed(b: u8, c: u8, value: u32) -> bool
    ensures { result ≡ (unused b && unused c && unused value) }
{
    b == 0 && rest_unused(c, value)
}

fn step_back_listed(a: u8, b: u8, c: u8, value: u32) -> bool
    ensures { result ≡ (unused a && unused b && unused c && unused value) }
{
    order_listed(a, b, c) && value == 0
}

fn opening_listed(b: u8, c: u8) -> bool
    ensures { result ≡ (unused b && unused c) }
{
    b == 0 && c == 0
}

// The opening of a ballot by its owner.
fn opening(id: u8, ballot: u32) -> Event
    ensures { result ≡ OfBallots (Open id ballot) }
{
    let event = BallotEvent::Open { id, ballot };
    Event::OfBallots { event }
}

// The act of a record's kind, at its fields. Question 3: is the kind a listed value, and do the other fields suit it?
pub(crate) fn listed_act(x: Fields) -> Option<Act>
    ensures { result ≡ listed_act x }
{
    let kind = x.kind;
    match kind {
        0 => lock_listed(x.c, x.value).then_some(Act::Play(Event::Lock {
            n: x.a,
            f: x.b,
            own: flag_of(x.c),
        })),
        1 => order_listed(x.a, x.b, x.c).then_some(Act::Play(Event::Order { number: x.value })),
        2 => vote_listed(x.b, x.c).then_some(Act::Play(Event::Cast {
            id: x.a,
            willing: flag_of(x.b),
            target: x.value,
        })),
        3 => Some(Act::Play(delivery(x.a, x.b, x.c, x.value)?)),
        4 => other_listed(x.b, x.c, x.value).then_some(Act::Play(Event::Timeout { id: x.a })),
        5 => decision_listed(x.b, x.c, x.value).then_some(Act::Play(Event::Decide {
            id: x.a,
            to_move: flag_of(x.b),
        })),
        6 => other_listed(x.b, x.c, x.value).then_some(Act::Play(Event::Stop { id: x.a })),
        7 => other_listed(x.b, x.c, x.value).then_some(Act::Play(Event::Save { id: x.a })),
        8 => other_listed(x.b, x.c, x.value).then_some(Act::Play(Event::Restore { id: x.a })),
        9 => step_back_listed(x.a, x.b, x.c, x.value).then_some(Act::Back),
        10 => opening_listed(x.b, x.c).then_some(Act::Play(opening(x.a, x.value))),
        _ => None,
    }
}
