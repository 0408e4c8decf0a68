// The first timeout.
ghost use Rattle.std.specs.Prelude.{◌≡◌, not, ◌&&◌};
ghost use Rattle.ground.specs.Mask.{has};
ghost use Rattle.model.specs.Ranges.{is_backup};
ghost use Rattle.model.specs.Routes.{recipients};
ghost use Rattle.model.specs.declared.Kind.TheVariants.{Ack};
ghost use Rattle.protocol.specs.Controllers.{advance};
ghost use Rattle.protocol.specs.Rules.{sending, acks_to, count_own, first_timeout};

use controller_state::{acks_to, advance, keep_ack, sending};
use ground::has;
use model::{Kind, is_backup, recipients};
use protocol::{Answer, Controller};

// Is its own acknowledgement to be counted? A backup counts it, once; the second backup, f + 1, does not.
pub fn counts_own(f: u8, i: u8, from: u32) -> bool
    ensures { result ≡ (is_backup f i && not (has from i)) }
{
    if !is_backup(f, i) {
        return false;
    }
    !has(from, i)
}

// "A holder .. counts its own as received": as an acknowledgement that came from itself.
fn count_own(f: u8, i: u8, c: Controller) -> Controller
    ensures { result ≡ count_own f i c }
{
    if counts_own(f, i, c.acks.from) {
        return keep_ack(c, i, c.votes);
    }
    c
}

// The vote set is frozen as the acknowledgement and sent, and the controller goes to stage 2.
pub fn acknowledge(n: u8, f: u8, i: u8, c: Controller) -> Answer
    ensures { result ≡ sending (advance c 2) (acks_to (recipients n f Ack i) c.votes) }
{
    let to = recipients(n, f, Kind::Ack, i);
    sending(advance(c, 2), acks_to(to, c.votes))
}

// The first timeout: a backup counts its own acknowledgement, and every one sends it.
pub fn first_timeout(n: u8, f: u8, i: u8, c: Controller) -> Answer
    ensures { result ≡ first_timeout n f i c }
{
    acknowledge(n, f, i, count_own(f, i, c))
}
