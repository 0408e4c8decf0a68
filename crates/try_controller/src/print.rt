// Lines of text into a buffer. What does not fit is left out; the buffer is written out long before that.
use controller::nth_message;
use controller_state::{is_standby, is_stopped, outcome_in, phase_in};
use model::{Checkpoint, Message, Outcome};
use protocol::{Answer, Condition, Identity, Outgoing, Reception, Sends};
use text::Writer;
use votes::VoteSet;

// A mark, then a number in decimal digits.
pub(crate) fn put_number(w: &mut Writer, mark: u8, v: u32) {
    w.byte(mark);
    w.number(v);
}

// A space, then an outcome.
fn put_outcome(w: &mut Writer, o: Outcome) {
    w.byte(b' ');
    match o {
        Outcome::None => w.byte(b'-'),
        Outcome::Stay => w.byte(b'S'),
        Outcome::Move => w.byte(b'M'),
    }
}

// A space, then what was sent of one kind: mask, known and willing, or - for nothing.
fn put_send(w: &mut Writer, send: Option<Outgoing>) {
    match send {
        None => put_outcome(w, Outcome::None),
        Some(o) => put_vote_set(w, o.to, o.votes),
    }
}

fn put_vote_set(w: &mut Writer, to: u32, s: VoteSet) {
    if to == 0 {
        return put_outcome(w, Outcome::None);
    }
    put_number(w, b' ', to);
    put_number(w, b':', s.known);
    put_number(w, b':', s.willing)
}

// stage, 8 stopped, 9 standing by
fn stage_shown(condition: Condition) -> u8 {
    if is_stopped(condition) {
        return 8;
    }
    if is_standby(condition) {
        return 9;
    }
    phase_in(condition)
}

// taken, passed over, or the number of the refusal
fn put_reception(w: &mut Writer, r: Reception) {
    match r {
        Reception::Taken => w.byte(b'1'),
        Reception::PassedOver => w.byte(b'0'),
        Reception::Contradicted => {
            w.byte(b'2');
            w.byte(b'4')
        }
    }
}

// reception stage outcome position put V A H R
fn put_answer(w: &mut Writer, a: Answer) {
    let c = a.controller;
    let condition = c.condition;
    let word = a.proposal;
    let sends = a.sends;
    let reception = a.reception;
    put_reception(w, reception);
    put_number(w, b' ', u32::from(stage_shown(condition)));
    put_outcome(w, outcome_in(condition));
    put_number(w, b' ', c.gate.position);
    put_outcome(w, word);
    put_sends(w, sends)
}

fn put_sends(w: &mut Writer, sends: Sends) {
    put_send(w, sends.vote);
    put_send(w, sends.ack);
    put_send(w, sends.help);
    put_send(w, sends.helped)
}

// The checkpoint, if one was made: K outcome order position
fn put_checkpoint(w: &mut Writer, saved: Option<Checkpoint>) {
    let Some(k) = saved else {
        return;
    };
    w.byte(b' ');
    w.byte(b'K');
    put_number(w, b' ', u32::from(u8::from(k.outcome)));
    put_number(w, b' ', k.order);
    put_number(w, b' ', k.position)
}

// A space, then a message: its kind > its receiver.
fn put_message(w: &mut Writer, m: Message) {
    let kind = m.kind;
    put_number(w, b' ', u32::from(u8::from(kind)));
    put_number(w, b'>', u32::from(m.to))
}

// The messages of an answer, one by one as a cabinet sends them: at most four kinds to LIMIT receivers.
fn put_messages(w: &mut Writer, me: Identity, sends: Sends) {
    for k in 0..128u8 {
        let Some(m) = nth_message(me, sends, k) else {
            return;
        };
        put_message(w, m);
    }
}

// The first n bytes go to standard output.
pub(crate) fn flush(rt: &HostRuntime, out: &[u8], n: usize) {
    if n <= out.len() {
        let _ = streams::write_output(rt, &out[..n]);
    }
}

// After a line, which has at most some 1,000 bytes, the buffer is written out if it is nearly full, and begins again at 0.
pub(crate) fn after_line(rt: &HostRuntime, out: &[u8], at: usize) -> usize {
    if 64000 < at {
        flush(rt, out, at);
        return 0;
    }
    at
}

// A line without its end, and without what it has of ballots.
pub(crate) fn put_line(w: &mut Writer, me: Identity, a: Answer, saved: Option<Checkpoint>) {
    let sends = a.sends;
    put_answer(w, a);
    put_checkpoint(w, saved);
    put_messages(w, me, sends)
}
