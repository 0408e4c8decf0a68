// What the console shows of one act, as text in a lent buffer.
#![tactic(auto)]

mod ballots;
mod changes;
mod lines;
mod sent;

ghost use Rattle.text.specs.Writers.{Wrote};
ghost use Rattle.trace.specs.Lines.{text};
ghost use Rattle.trace.specs.Shown.{given, told, came_of, shown};

use ballots::put_ballots;
use changes::put_changes;
use lines::{put_answered, put_told, put_undone};
use model::{Act, Event};
use protocol::Bench;
use sent::{put_all_sent, put_words};
use text::Writer;

// The word that an event gives.
#[tactic(auto, unfolding(trace::specs::Shown::given, trace::specs::Lines::text))]
fn put_given(w: &mut Writer, e: Event)
    ensures { Wrote w.old w.new (text (given e)) }
{
    match e {
        Event::Decide { id, to_move } => put_told(w, b"given", Event::Decide { id, to_move }),
        Event::Lock { .. }
        | Event::Order { .. }
        | Event::Cast { .. }
        | Event::Deliver { .. }
        | Event::Timeout { .. }
        | Event::Stop { .. }
        | Event::Save { .. }
        | Event::Restore { .. }
        | Event::OfBallots { .. } => w.bytes(b""),
    }
}

// What an accepted event sent, and the words put and given.
fn put_event(w: &mut Writer, e: Event, old: Bench, new: Bench)
    ensures { Wrote w.old w.new (text (told e old new)) }
{
    put_all_sent(w, old.stations, new.stations);
    put_ballots(w, e, new.shared.n, old.ballots, new.ballots);
    put_words(w, old.stations, new.stations);
    put_given(w, e)
}

// What came of an accepted act, with the index of the event that it undid.
fn put_came(w: &mut Writer, undone: u32, act: Act, old: Bench, new: Bench)
    ensures { Wrote w.old w.new (text (came_of undone act old new)) }
{
    match act {
        Act::Play(e) => {
            put_changes(w, old, new);
            put_event(w, e, old, new)
        }
        Act::Back => {
            put_undone(w, undone);
            put_changes(w, old, new)
        }
    }
}

// What is shown of the act with index k: its answer, and what came of it, by the bench before it and the bench after it.
pub fn put_shown(w: &mut Writer, k: u32, undone: u32, act: Act, answer: u8, old: Bench, new: Bench)
    ensures { Wrote w.old w.new (text (shown k undone act answer old new)) }
{
    put_answered(w, k, answer);
    if answer == 0 {
        put_came(w, undone, act, old, new);
    }
}
