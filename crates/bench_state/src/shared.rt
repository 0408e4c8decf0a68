// What is shared by all controllers of a bench, and what an event leaves of it.
ghost use Rattle.std.specs.Prelude.{◌≡◌};
ghost use Rattle.protocol.specs.Counts.{open_gates_of};
ghost use Rattle.protocol.specs.Questions.{may_open};
ghost use Rattle.protocol.specs.Steps.{order_opened, proposed_to, decided_as};

use crate::parts::{all_undecided, no_consensus};
use model::{Outcome, is_move, is_stay, word_of};
use protocol::{Consensus, Shared};

// How many gates are still open: the number that the bench keeps, for the panel.
pub fn open_gates(m: Shared) -> u8
    ensures { result ≡ open_gates_of m }
{
    m.counts.undecided
}

// 13: no order yet, or no gate still open.
pub fn may_open(m: Shared) -> bool
    ensures { result ≡ may_open m }
{
    m.order == 0 || open_gates(m) == 0
}

// What is shared, in a new order: words put and the arbiter's choice are gone too.
pub fn order_opened(m: Shared, order: u32) -> Shared
    ensures { result ≡ order_opened m order }
{
    let consensus = no_consensus();
    let counts = all_undecided(m.counts.present);
    Shared {
        order,
        consensus,
        counts,
        ..m
    }
}

// What is shared, after a word was put, if any.
pub fn proposed_to(m: Shared, proposal: Outcome) -> Shared
    ensures { result ≡ proposed_to m proposal }
{
    let old = m.consensus;
    let consensus = Consensus {
        move_proposed: old.move_proposed | is_move(proposal),
        stay_proposed: old.stay_proposed | is_stay(proposal),
        ..old
    };
    Shared { consensus, ..m }
}

// What is shared, with the choice of the consensus.
pub fn decided_as(m: Shared, to_move: bool) -> Shared
    ensures { result ≡ decided_as m to_move }
{
    let old = m.consensus;
    let decision = word_of(to_move);
    let consensus = Consensus { decision, ..old };
    Shared { consensus, ..m }
}
