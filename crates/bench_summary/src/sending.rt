// To whom a controller has sent messages in this order.
ghost use Rattle.std.specs.Prelude.{◌≡◌, cond, ◌<◌, ltb};
ghost use Rattle.ground.specs.Limit.{limit};
ghost use Rattle.protocol.specs.Benches.{of_kind};

use ground::LIMIT;
use model::Kind;
use protocol::{Sent, Station};

// To whom a controller has sent messages of this kind.
pub fn receivers(kind: Kind, sent: Sent) -> u32
    ensures { result ≡ (of_kind kind sent).to }
{
    match kind {
        Kind::Vote => sent.vote.to,
        Kind::Ack => sent.ack.to,
        Kind::Help => sent.help.to,
        Kind::Helped => sent.helped.to,
    }
}

// The index itself, or 0 past the last station.
pub(crate) fn place_of(i: usize) -> usize
    ensures { (result < limit) × (i < limit → result ≡ i) }
{
    if i < LIMIT {
        return i;
    }
    0
}

// To whom the controller at an index has sent messages of this kind, its station given; past the last station there is none.
pub(crate) fn receivers_at(i: usize, kind: Kind, s: Station) -> u32
    ensures { result ≡ cond (ltb i limit) (of_kind kind s.sent).to 0 }
{
    if i < LIMIT {
        return receivers(kind, s.sent);
    }
    0
}
