// What was sent and put: messages and words that are there now and were not before.
ghost use Rattle.std.specs.Prelude.{◌≡◌, not, ◌&&◌};
ghost use Rattle.text.specs.Writers.{Wrote};
ghost use Rattle.ground.specs.Mask.{has};
ghost use Rattle.model.specs.Numbers.{is_none};
ghost use Rattle.trace.specs.Lines.{text};
ghost use Rattle.trace.specs.Shown.{is_new, sent_to, sent_of, sent, put};

use crate::lines::put_told_if;
use bench_summary::receivers;
use bench_turns::proposal_of;
use ground::{LIMIT, has};
use model::{Event, Kind, Outcome, is_move, is_none};
use protocol::Station;
use text::Writer;

fn is_new(old: u32, new: u32, k: u8) -> bool
    ensures { result ≡ is_new (has old k) (has new k) }
{
    if has(new, k) {
        return !has(old, k);
    }
    false
}

// The messages of one kind from i.
fn put_sent_to(w: &mut Writer, kind: Kind, i: u8, old: u32, new: u32)
    ensures { Wrote w.old w.new (text (sent_to kind i old new)) }
{
    for j in 0..LIMIT {
        let to = j as u8 + 1;
        let e = Event::Deliver { from: i, to, kind };
        put_told_if(w, is_new(old, new, to), b"sent", e);
    }
}

// The messages of one kind.
fn put_sent(w: &mut Writer, kind: Kind, old: [Station; LIMIT], new: [Station; LIMIT])
    ensures { Wrote w.old w.new (text (sent_of kind old new)) }
{
    for i in 0..LIMIT {
        let s = old[i];
        let t = new[i];
        let before = receivers(kind, s.sent);
        let now = receivers(kind, t.sent);
        put_sent_to(w, kind, i as u8 + 1, before, now);
    }
}

pub(crate) fn put_all_sent(w: &mut Writer, old: [Station; LIMIT], new: [Station; LIMIT])
    ensures { Wrote w.old w.new (text (sent old new)) }
{
    put_sent(w, Kind::Vote, old, new);
    put_sent(w, Kind::Ack, old, new);
    put_sent(w, Kind::Help, old, new);
    put_sent(w, Kind::Helped, old, new)
}

fn is_word_new(old: Outcome, new: Outcome) -> bool
    ensures { result ≡ (is_none old && not (is_none new)) }
{
    if is_none(old) {
        return !is_none(new);
    }
    false
}

// The words put.
pub(crate) fn put_words(w: &mut Writer, old: [Station; LIMIT], new: [Station; LIMIT])
    ensures { Wrote w.old w.new (text (put old new)) }
{
    for i in 0..LIMIT {
        let before = proposal_of(old[i]);
        let now = proposal_of(new[i]);
        let e = Event::Decide {
            id: i as u8 + 1,
            to_move: is_move(now),
        };
        put_told_if(w, is_word_new(before, now), b"put", e);
    }
}
