// What a controller's answer leaves of its station, and of what is shared.
ghost use Rattle.std.specs.Prelude.{◌≡◌};
ghost use Rattle.protocol.specs.Steps.{station_after, answering};

use bench_state::{counts_after, proposed_to};
use controller_state::sent_after;
use protocol::{Answer, Effect, Shared, Station};

// A station after its controller's answer.
pub(crate) fn station_after(s: Station, a: Answer) -> Station
    ensures { result ≡ station_after s a }
{
    let sent = sent_after(s.sent, a.sends);
    let controller = a.controller;
    let saved = s.saved;
    Station {
        controller,
        sent,
        saved,
    }
}

// The controller's answer put back; the counts follow its condition.
pub fn answering(m: Shared, s: Station, a: Answer) -> Effect
    ensures { result ≡ answering m s a }
{
    let old = s.controller;
    let before = old.condition;
    let new = a.controller;
    let after = new.condition;
    let counts = counts_after(before, after, m.counts);
    let proposal = a.proposal;
    let shared = Shared {
        counts,
        ..proposed_to(m, proposal)
    };
    let station = station_after(s, a);
    Effect { shared, station }
}
