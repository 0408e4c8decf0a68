// The lines of frames that read: `R q`, or `=` and the fields.
use crate::line::Line;
use model::{BallotMessage, Message, Telegram, answer_number};

fn refused(q: u8) -> Line {
    Line::new(b'R').number(u32::from(q))
}

// What every telegram has. The kind is its number.
fn head_line(kind: u8, n: u8, f: u8, from: u8, to: u8, order: u32) -> Line {
    Line::new(b'=')
        .number(u32::from(kind))
        .number(u32::from(n))
        .number(u32::from(f))
        .number(u32::from(from))
        .number(u32::from(to))
        .number(order)
}

fn message_line(m: Message) -> Line {
    let kind = m.kind;
    let set = m.votes;
    let line = head_line(u8::from(kind), m.n, m.f, m.from, m.to, m.order);
    line.number(set.known).number(set.willing)
}

// The four bytes more of a ballot, but the last.
fn put_more(line: Line, ballot: u8, last: u8, word: u8) -> Line {
    line.number(u32::from(ballot))
        .number(u32::from(last))
        .number(u32::from(word))
}

fn ballot_line(b: BallotMessage) -> Line {
    let kind = b.kind;
    let set = b.votes;
    let word = b.word;
    let line = head_line(u8::from(kind), b.n, b.f, b.from, b.to, b.order);
    let next = line.number(set.known).number(set.willing);
    put_more(next, b.ballot, b.last, u8::from(word))
}

fn fields_line(t: Telegram) -> Line {
    match t {
        Telegram::Plain(m) => message_line(m),
        Telegram::OfBallot(b) => ballot_line(b),
    }
}

fn telegram_line(s: &[u8]) -> Line {
    let read = message_bytes::read_telegram(s);
    let Ok(t) = read else {
        return refused(answer_number(read));
    };
    fields_line(t)
}

fn checkpoint_line(s: &[u8]) -> Line {
    let read = checkpoint_record::read_checkpoint(s);
    let Ok(p) = read else {
        return refused(answer_number(read));
    };
    let outcome = p.outcome;
    Line::new(b'=')
        .number(u32::from(p.id))
        .number(u32::from(p.n))
        .number(u32::from(p.f))
        .number(u32::from(u8::from(outcome)))
        .number(p.order)
        .number(p.position)
}

fn event_line(s: &[u8]) -> Line {
    let read = event_record::read_event(s);
    let Ok(act) = read else {
        return refused(answer_number(read));
    };
    let x = event_record::fields_of(act);
    Line::new(b'=')
        .number(u32::from(x.kind))
        .number(u32::from(x.a))
        .number(u32::from(x.b))
        .number(u32::from(x.c))
        .number(x.value)
}

pub(crate) fn line_of(what: u8, s: &[u8]) -> Line {
    match what {
        0 => telegram_line(s),
        1 => checkpoint_line(s),
        _ => event_line(s),
    }
}
