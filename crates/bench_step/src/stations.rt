// A station by its controller's number, read and put back; the message that is handed to a controller.
ghost use Rattle.std.specs.Prelude.{◌≡◌, length, replicate};
ghost use Rattle.ground.specs.Limit.{limit};
ghost use Rattle.ground.specs.Lists.{nth};
ghost use Rattle.votes.specs.VoteSets.{empty};
ghost use Rattle.protocol.specs.Sequence.{message_to};
ghost use Rattle.protocol.specs.Benches.{fresh_station, identity};
ghost use Rattle.protocol.specs.Steps.{put_back};

use bench_state::fresh_station;
use ground::{nth, put};
use model::{Kind, Message};
use protocol::{Bench, Effect, Shared, Station};
use votes::VoteSet;

// Station i; a number that no controller has reads as a controller that has just begun. There are as many stations as the limit says.
pub(crate) fn station_at(b: Bench, i: u8) -> Station
    ensures value { result ≡ nth (fresh_station (replicate limit empty)) b.stations i }
    ensures stations_len { length b.stations ≡ limit }
{
    nth(b.stations, i as usize, fresh_station())
}

pub(crate) fn message_to(m: Shared, kind: Kind, from: u8, to: u8, votes: VoteSet) -> Message
    ensures { result ≡ message_to (identity m from) kind votes to }
{
    Message {
        kind,
        n: m.n,
        f: m.f,
        from,
        to,
        order: m.order,
        votes,
    }
}

// The bench with what an event of one controller leaves. On a bench value that says it has more controllers than there are stations, an event of one that has
// none changes what is shared alone.
pub(crate) fn put_back(b: Bench, id: u8, t: Effect) -> Bench
    ensures { result ≡ put_back b id t }
{
    Bench {
        shared: t.shared,
        ballots: b.ballots,
        stations: put(b.stations, id as usize, t.station),
    }
}
