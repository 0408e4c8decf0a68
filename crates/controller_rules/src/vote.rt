// The vote.
ghost use Rattle.std.specs.Prelude.{◌≡◌};
ghost use Rattle.protocol.specs.Rules.{vote_rule};

use controller_state::{advance, aim, learn, phase_after_vote, sending, votes_to};
use model::{Kind, recipients};
use protocol::{Answer, Controller};
use votes::single;

// Its own vote goes on its vote set, and to the backups.
pub fn vote_rule(n: u8, f: u8, i: u8, willing: bool, target: u32, c: Controller) -> Answer
    ensures { result ≡ vote_rule n f i willing target c }
{
    let own = single(i, willing);
    let next = advance(aim(learn(c, own), target), phase_after_vote(f, i));
    let to = recipients(n, f, Kind::Vote, i);
    sending(next, votes_to(to, own))
}
