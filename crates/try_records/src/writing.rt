// The lines of frames that write: `W q` and the whole buffer afterwards, in hexadecimal.
ghost use Rattle.std.specs.Prelude.{◌≡◌, length};

use crate::line::Line;
use model::{
    BallotKind, BallotMessage, Checkpoint, Kind, Message, Outcome, Telegram, answer_number,
};
use records::number4;
use votes::VoteSet;

// A frame whose kind, outcome or fields are no listed values: there is nothing to write.
pub(crate) fn unlisted() -> Line {
    Line::new(b'?')
}

fn written(q: u8, out: &[u8]) -> Line {
    let mut line = Line::new(b'W').number(u32::from(q)).byte(b' ');
    for b in out {
        line = line.hex(*b);
    }
    line
}

fn telegram_line(t: Telegram, out: &mut [u8]) -> Line {
    let q = answer_number(message_bytes::write_telegram(out, t));
    written(q, out)
}

// Kinds 1 to 4 have no ballot, last and word.
fn message_line(kind: Kind, x: &[u8], out: &mut [u8]) -> Line
    requires { length x.now ≡ 38 }
{
    if number4(x, 17) / 256 != 0 {
        return unlisted();
    }
    let votes = VoteSet {
        known: number4(x, 9),
        willing: number4(x, 13),
    };
    let m = Message {
        kind,
        n: x[1],
        f: x[2],
        from: x[3],
        to: x[4],
        order: number4(x, 5),
        votes,
    };
    telegram_line(Telegram::Plain(m), out)
}

// Kinds 5 to 8 have an empty vote set.
fn ballot_line(kind: BallotKind, x: &[u8], out: &mut [u8]) -> Line
    requires { length x.now ≡ 38 }
{
    let votes = VoteSet {
        known: number4(x, 9),
        willing: number4(x, 13),
    };
    if votes.known != 0 {
        return unlisted();
    }
    if votes.willing != 0 {
        return unlisted();
    }
    let Ok(word) = Outcome::try_from(x[19]) else {
        return unlisted();
    };
    let b = BallotMessage {
        kind,
        n: x[1],
        f: x[2],
        from: x[3],
        to: x[4],
        order: number4(x, 5),
        votes,
        ballot: x[17],
        last: x[18],
        word,
    };
    telegram_line(Telegram::OfBallot(b), out)
}

fn of_kind(x: &[u8], out: &mut [u8]) -> Line
    requires { length x.now ≡ 38 }
{
    if let Ok(kind) = Kind::try_from(x[0]) {
        return message_line(kind, x, out);
    }
    if let Ok(kind) = BallotKind::try_from(x[0]) {
        return ballot_line(kind, x, out);
    }
    unlisted()
}

fn checkpoint_line(x: &[u8], out: &mut [u8]) -> Line
    requires { length x.now ≡ 38 }
{
    let Ok(outcome) = Outcome::try_from(x[3]) else {
        return unlisted();
    };
    let p = Checkpoint {
        id: x[0],
        n: x[1],
        f: x[2],
        outcome,
        order: number4(x, 4),
        position: number4(x, 8),
    };
    let q = answer_number(checkpoint_record::write_checkpoint(out, p));
    written(q, out)
}

// The fields are those of a record, so reading makes the event, or the step back, of them.
fn event_line(x: &[u8], out: &mut [u8]) -> Line
    requires { length x.now ≡ 38 }
{
    let record = [0x4Cu8, 0x45, x[0], x[1], x[2], x[3], x[4], x[5], x[6], x[7]];
    let Ok(act) = event_record::read_event(&record) else {
        return unlisted();
    };
    let q = answer_number(event_record::write_event(out, act));
    written(q, out)
}

// Writes what the fields say into a buffer.
pub(crate) fn line_of(what: u8, x: &[u8], out: &mut [u8]) -> Line
    requires { length x.now ≡ 38 }
{
    match what {
        3 => of_kind(x, out),
        4 => checkpoint_line(x, out),
        5 => event_line(x, out),
        _ => unlisted(),
    }
}
