// The events that INBAC's rules answer: a vote, a message that is delivered, a timeout. The controller is called as a cabinet calls it: on a bench value that
// no run leads to, its own tests may still answer "no" where the bench's questions are answered "yes".
ghost use Rattle.std.specs.Prelude.{◌≡◌};
ghost use Rattle.model.specs.declared.Event.TheVariants.{Cast, Deliver, Timeout};
ghost use Rattle.bench_step.specs.Steps.{stepped, stepped_of};

use crate::stations::{message_to, put_back, station_at};
use bench_state::{cast_question, deliver_question, timeout_question};
use bench_turns::{answering, condition_of, identity, outgoing};
use controller::{receive, timeout, vote};
use controller_state::is_contradicted;
use model::{Kind, Refusal};
use protocol::Bench;

pub(crate) fn cast(b: Bench, id: u8, willing: bool, target: u32) -> Result<Bench, Refusal>
    ensures { stepped_of b result ≡ stepped b (Cast id willing target) }
{
    let s = station_at(b, id);
    cast_question(b.shared, condition_of(s), id, target)?;
    let a = vote(identity(b.shared, id), willing, target, s.controller);
    Ok(put_back(b, id, answering(b.shared, s, a)))
}

// 24, asked last, is the controller's own answer.
pub(crate) fn deliver(b: Bench, from: u8, to: u8, kind: Kind) -> Result<Bench, Refusal>
    ensures { stepped_of b result ≡ stepped b (Deliver from to kind) }
{
    let s = station_at(b, to);
    let out = outgoing(kind, station_at(b, from));
    let a = receive(
        identity(b.shared, to),
        message_to(b.shared, kind, from, to, out.votes),
        s.controller,
    );
    let reception = a.reception;
    let agrees = !is_contradicted(reception);
    deliver_question(b.shared, condition_of(s), out.to, agrees, from, to, kind)?;
    Ok(put_back(b, to, answering(b.shared, s, a)))
}

pub(crate) fn time_out(b: Bench, id: u8) -> Result<Bench, Refusal>
    ensures { stepped_of b result ≡ stepped b (Timeout id) }
{
    let s = station_at(b, id);
    timeout_question(b.shared, condition_of(s), id)?;
    let a = timeout(identity(b.shared, id), s.controller);
    Ok(put_back(b, id, answering(b.shared, s, a)))
}
