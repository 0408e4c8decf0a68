// What was sent in the ballot of an event.
ghost use Rattle.std.specs.Prelude.{◌≡◌};
ghost use Rattle.text.specs.Writers.{Wrote};
ghost use Rattle.trace.specs.Lines.{text};
ghost use Rattle.trace.specs.Shown.{new_in, sent_from, sent_in, in_ballot, ballot_sent, ballots};

use crate::lines::put_told_if;
use ballot_rules::was_sent_in;
use bench_turns::ballot_of;
use ground::LIMIT;
use model::{BallotEvent, BallotKind, Event, different_controllers, is_ballot};
use protocol::{BALLOTS, BallotRow, Ballots};
use text::Writer;

fn is_new_in(kind: BallotKind, n: u8, b: u8, i: u8, j: u8, old: BallotRow, new: BallotRow) -> bool
    ensures { result ≡ new_in kind n b i j old new }
{
    if !different_controllers(n, i, j) {
        return false;
    }
    if was_sent_in(kind, n, b, i, j, new) {
        return !was_sent_in(kind, n, b, i, j, old);
    }
    false
}

fn put_sent_from(
    w: &mut Writer,
    kind: BallotKind,
    n: u8,
    b: u8,
    i: u8,
    old: BallotRow,
    new: BallotRow,
)
    ensures { Wrote w.old w.new (text (sent_from kind n b i old new)) }
{
    for k in 0..LIMIT {
        let j = k as u8 + 1;
        let event = BallotEvent::Carry {
            from: i,
            to: j,
            kind,
            ballot: b as u32,
        };
        let is_new = is_new_in(kind, n, b, i, j, old, new);
        put_told_if(w, is_new, b"sent", Event::OfBallots { event });
    }
}

fn put_sent_in(w: &mut Writer, kind: BallotKind, n: u8, b: u8, old: BallotRow, new: BallotRow)
    ensures { Wrote w.old w.new (text (sent_in kind n b old new)) }
{
    for k in 0..LIMIT {
        put_sent_from(w, kind, n, b, k as u8 + 1, old, new);
    }
}

fn put_in_ballot(w: &mut Writer, n: u8, b: u8, old: BallotRow, new: BallotRow)
    ensures { Wrote w.old w.new (text (in_ballot n b old new)) }
{
    put_sent_in(w, BallotKind::Prepare, n, b, old, new);
    put_sent_in(w, BallotKind::Promise, n, b, old, new);
    put_sent_in(w, BallotKind::Accept, n, b, old, new);
    put_sent_in(w, BallotKind::Accepted, n, b, old, new)
}

fn put_ballot_sent(
    w: &mut Writer,
    e: BallotEvent,
    n: u8,
    old: [BallotRow; BALLOTS],
    new: [BallotRow; BALLOTS],
)
    ensures { Wrote w.old w.new (text (ballot_sent e n old new)) }
{
    let b = ballot_of(e);
    if !is_ballot(b) {
        return w.bytes(b"");
    }
    let k = (b - 1) as usize;
    let was = old[k];
    let is = new[k];
    put_in_ballot(w, n, b as u8, was, is)
}

// Only an event of a ballot sends in one.
#[tactic(auto, unfolding(trace::specs::Shown::ballots, trace::specs::Lines::text))]
pub(crate) fn put_ballots(w: &mut Writer, e: Event, n: u8, old: Ballots, new: Ballots)
    ensures { Wrote w.old w.new (text (ballots e n old new)) }
{
    match e {
        Event::OfBallots { event } => put_ballot_sent(w, event, n, old.rows, new.rows),
        Event::Lock { .. }
        | Event::Order { .. }
        | Event::Cast { .. }
        | Event::Deliver { .. }
        | Event::Timeout { .. }
        | Event::Decide { .. }
        | Event::Stop { .. }
        | Event::Save { .. }
        | Event::Restore { .. } => w.bytes(b""),
    }
}
