// What a line has of ballots, at a lock that settles the word by them.
use crate::ballots::Call;
use crate::print::put_number;
use controller::nth_ballot_message;
use model::BallotMessage;
use protocol::{Acceptor, BallotAnswer, Identity};
use text::Writer;

// B highest last word
fn put_acceptor(w: &mut Writer, a: Acceptor) {
    let word = a.word;
    w.byte(b' ');
    w.byte(b'B');
    put_number(w, b' ', u32::from(a.highest));
    put_number(w, b' ', u32::from(a.last));
    put_number(w, b' ', u32::from(u8::from(word)))
}

// A space, then a message: kind:ballot:last:word>receiver
fn put_message(w: &mut Writer, m: BallotMessage) {
    let kind = m.kind;
    let word = m.word;
    put_number(w, b' ', u32::from(u8::from(kind)));
    put_number(w, b':', u32::from(m.ballot));
    put_number(w, b':', u32::from(m.last));
    put_number(w, b':', u32::from(u8::from(word)));
    put_number(w, b'>', u32::from(m.to))
}

// The messages of an answer, one by one as a cabinet sends them: at most two kinds to LIMIT receivers.
fn put_messages(w: &mut Writer, me: Identity, b: u8, x: BallotAnswer) {
    for k in 0..64u8 {
        let Some(m) = nth_ballot_message(me, b, x, k) else {
            return;
        };
        put_message(w, m);
    }
}

// What a command did in its ballot. With an arbiter a line has nothing of ballots.
pub(crate) fn put_call(w: &mut Writer, me: Identity, call: Call) {
    if !call.own {
        return;
    }
    let answer = call.answer;
    let acceptor = answer.acceptor;
    put_acceptor(w, acceptor);
    put_messages(w, me, call.ballot, answer)
}
