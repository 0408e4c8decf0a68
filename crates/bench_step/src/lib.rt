// The bench by value: one call takes a bench and an event, and returns the bench, or the question that refuses the event. Each kind of event has a function of its own, which asks
// the event's questions; that of an event of one controller puts back what its turn, or its answer to a call, leaves, if the event is accepted.
#![tactic(auto)]

mod ballots;
mod calls;
mod lifecycle;
mod orders;
mod stations;

ghost use Rattle.std.specs.Prelude.{◌≡◌};
ghost use Rattle.bench_step.specs.Steps.{stepped, stepped_of};

use crate::ballots::ballot;
use crate::calls::{cast, deliver, time_out};
use crate::lifecycle::{decide, restore, save, stop};
use crate::orders::{lock, open};
use model::{Event, Refusal};
use protocol::Bench;

// The bench after the event, or the first question answered "no"; a refused event leaves the bench as it was.
pub fn step(b: Bench, e: Event) -> Result<Bench, Refusal>
    ensures { stepped_of b result ≡ stepped b e }
{
    match e {
        Event::Lock { n, f, own } => lock(b, n, f, own),
        Event::Order { number } => open(b, number),
        Event::Cast {
            id,
            willing,
            target,
        } => cast(b, id, willing, target),
        Event::Deliver { from, to, kind } => deliver(b, from, to, kind),
        Event::Timeout { id } => time_out(b, id),
        Event::Decide { id, to_move } => decide(b, id, to_move),
        Event::Stop { id } => stop(b, id),
        Event::Save { id } => save(b, id),
        Event::Restore { id } => restore(b, id),
        Event::OfBallots { event } => ballot(b, event),
    }
}
