// What the questions and the turns look at in a station.
ghost use Rattle.std.specs.Prelude.{◌≡◌, is_some};
ghost use Rattle.protocol.specs.Benches.{identity, of_kind};

use model::{Kind, Outcome};
use protocol::{Condition, Identity, Outgoing, Sent, Shared, Station};

pub fn condition_of(s: Station) -> Condition
    ensures { result ≡ s.controller.condition }
{
    s.controller.condition
}

// The word that it has put.
pub fn proposal_of(s: Station) -> Outcome
    ensures { result ≡ s.controller.proposal }
{
    s.controller.proposal
}

// Has it a checkpoint?
pub fn is_saved(s: Station) -> bool
    ensures { result ≡ is_some s.saved }
{
    s.saved.is_some()
}

pub fn identity(m: Shared, id: u8) -> Identity
    ensures { result ≡ identity m id }
{
    Identity {
        n: m.n,
        f: m.f,
        id,
        order: m.order,
    }
}

fn of_kind(kind: Kind, s: Sent) -> Outgoing
    ensures { result ≡ of_kind kind s }
{
    match kind {
        Kind::Vote => s.vote,
        Kind::Ack => s.ack,
        Kind::Help => s.help,
        Kind::Helped => s.helped,
    }
}

// The messages of one kind that a controller has sent.
pub fn outgoing(kind: Kind, s: Station) -> Outgoing
    ensures { result ≡ of_kind kind s.sent }
{
    of_kind(kind, s.sent)
}
