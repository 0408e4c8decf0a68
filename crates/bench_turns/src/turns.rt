// One function for what an accepted event of each kind does to a station, over the rules of a controller. Those that change nothing but the station
// return it; the others return what is shared with it.
ghost use Rattle.std.specs.Prelude.{◌≡◌};
ghost use Rattle.model.specs.Routes.{recipients};
ghost use Rattle.model.specs.declared.Kind.TheVariants.{Ack};
ghost use Rattle.model.specs.Numbers.{word_of};
ghost use Rattle.protocol.specs.declared.Condition.TheVariants.{Stopped, Standby};
ghost use Rattle.protocol.specs.Controllers.{advance, cleared, conclude};
ghost use Rattle.protocol.specs.Rules.{sending, acks_to, becomes, vote_rule, vote_arrives, help_arrives, helped_arrives, propose_if_sufficient, second_timeout};
ghost use Rattle.protocol.specs.Calls.{save};
ghost use Rattle.protocol.specs.Benches.{identity};
ghost use Rattle.bench_turns.specs.Turns.{outcome_saved};
ghost use Rattle.protocol.specs.Steps.{station_after, answering, keeping, decided_as, renewed};

use crate::effects::{answering, station_after};
use crate::stations::identity;
use bench_state::decided_as;
use controller::renew;
use controller_rules::{
    acknowledge, help_arrives, helped_arrives, propose_if_sufficient, second_timeout, vote_arrives,
    vote_rule,
};
use controller_state::{becomes, cleared, conclude, outcome_kept, unsent_all};
use model::{Checkpoint, Outcome, word_of};
use protocol::{Condition, Effect, Shared, Station};
use votes::VoteSet;

// A vote.
pub fn cast_turn(m: Shared, own: Station, id: u8, willing: bool, target: u32) -> Station
    ensures { result ≡ station_after own (vote_rule m.n m.f id willing target own.controller) }
{
    station_after(
        own,
        vote_rule(m.n, m.f, id, willing, target, own.controller),
    )
}

// A vote message arrives.
pub fn vote_turn(own: Station, s: VoteSet) -> Station
    ensures { result ≡ station_after own (vote_arrives s own.controller) }
{
    station_after(own, vote_arrives(s, own.controller))
}

// A help call arrives.
pub fn help_turn(own: Station, from: u8) -> Station
    ensures { result ≡ station_after own (help_arrives from own.controller) }
{
    station_after(own, help_arrives(from, own.controller))
}

// A help answer arrives.
pub fn helped_turn(m: Shared, own: Station, from: u8, s: VoteSet) -> Effect
    ensures { result ≡ answering m own (helped_arrives m.n m.f from s own.controller) }
{
    answering(m, own, helped_arrives(m.n, m.f, from, s, own.controller))
}

// One more acknowledgement is held: if that completes the count, a word is put.
pub fn settled_turn(m: Shared, own: Station) -> Effect
    ensures { result ≡ answering m own (propose_if_sufficient m.n m.f (becomes own.controller)) }
{
    answering(
        m,
        own,
        propose_if_sufficient(m.n, m.f, becomes(own.controller)),
    )
}

// The first timeout, once the own acknowledgement is counted.
pub fn first_turn(m: Shared, own: Station, id: u8) -> Station
    ensures { result ≡ station_after own (sending (advance own.controller 2) (acks_to (recipients m.n m.f Ack id) own.controller.votes)) }
{
    station_after(own, acknowledge(m.n, m.f, id, own.controller))
}

// The second timeout.
pub fn second_turn(m: Shared, own: Station, id: u8) -> Effect
    ensures { result ≡ answering m own (second_timeout m.n m.f id own.controller) }
{
    answering(m, own, second_timeout(m.n, m.f, id, own.controller))
}

// The arbiter's word.
pub fn decide_turn(m: Shared, own: Station, to_move: bool) -> Effect
    ensures { result ≡ answering (decided_as m to_move) own (becomes (conclude own.controller (word_of to_move))) }
{
    answering(
        decided_as(m, to_move),
        own,
        becomes(conclude(own.controller, word_of(to_move))),
    )
}

// A stop: it holds nothing any more, but its gate stands where it stood, and its checkpoint and what it has sent or put remain.
pub fn stop_turn(m: Shared, own: Station) -> Effect
    ensures { result ≡ answering m own (becomes (cleared Stopped own.controller)) }
{
    let next = cleared(Condition::Stopped, own.controller);
    answering(m, own, becomes(next))
}

// The checkpoint takes the place of the one before.
pub fn save_turn(m: Shared, own: Station, id: u8) -> Station
    ensures { result ≡ keeping own (save (identity m id) own.controller) }
{
    let saved = controller::save(identity(m, id), own.controller);
    Station { saved, ..own }
}

// The outcome of the checkpoint, if it is of this order.
fn outcome_saved(saved: Option<Checkpoint>, order: u32) -> Outcome
    ensures { result ≡ outcome_saved saved order }
{
    match saved {
        None => Outcome::None,
        Some(checkpoint) => outcome_kept(checkpoint.order, checkpoint.outcome, order),
    }
}

// It stands by, with that outcome.
pub fn restore_turn(m: Shared, own: Station) -> Effect
    ensures { result ≡ answering m own (becomes (cleared (Standby (outcome_saved own.saved m.order)) own.controller)) }
{
    let outcome = outcome_saved(own.saved, m.order);
    let next = cleared(Condition::Standby(outcome), own.controller);
    answering(m, own, becomes(next))
}

// A station in a new order: old messages are gone, the checkpoint remains.
pub fn renewed(s: Station) -> Station
    ensures { result ≡ renewed s }
{
    Station {
        controller: renew(s.controller),
        sent: unsent_all(),
        saved: s.saved,
    }
}
