// The arbiter's word, and what ends, saves, restores and renews a controller.
ghost use Rattle.std.specs.Prelude.{◌≡◌};
ghost use Rattle.protocol.specs.Calls.{awaits_decision, decide, stop, checkpoint_of, SaveOf, restore, renew};

use controller_state::{
    becomes, cleared, conclude, is_present, is_running, is_standby, is_stopped, outcome_in,
    outcome_kept, passed_over, phase_in, renewed_condition,
};
use model::{Checkpoint, word_of};
use protocol::{Answer, Condition, Controller, Identity};

// It stands by, or runs at stage 3.
fn awaits_decision(c: Controller) -> bool
    ensures { result ≡ awaits_decision c }
{
    if is_standby(c.condition) {
        return true;
    }
    if is_running(c.condition) {
        return phase_in(c.condition) == 3;
    }
    false
}

// The arbiter's word: the outcome if there is none.
pub fn decide(to_move: bool, c: Controller) -> Answer
    ensures { result ≡ decide to_move c }
{
    if awaits_decision(c) {
        return becomes(conclude(c, word_of(to_move)));
    }
    passed_over(c)
}

// It ends everything but the position of its gate.
pub fn stop(c: Controller) -> Answer
    ensures { result ≡ stop c }
{
    if is_present(c.condition) {
        return becomes(cleared(Condition::Stopped, c));
    }
    passed_over(c)
}

// What it is and holds, as a checkpoint.
fn checkpoint_of(me: Identity, c: Controller) -> Checkpoint
    ensures { result ≡ checkpoint_of me c }
{
    Checkpoint {
        id: me.id,
        n: me.n,
        f: me.f,
        outcome: outcome_in(c.condition),
        order: me.order,
        position: c.gate.position,
    }
}

// The checkpoint (number 0), unless it is stopped (15).
pub fn save(me: Identity, c: Controller) -> Option<Checkpoint>
    ensures { SaveOf me c result }
{
    if is_present(c.condition) {
        return Some(checkpoint_of(me, c));
    }
    None
}

// A stopped controller stands by. The gate stays where it is.
pub fn restore(me: Identity, saved: Checkpoint, c: Controller) -> Answer
    ensures { result ≡ restore me saved c }
{
    if is_stopped(c.condition) {
        let outcome = outcome_kept(saved.order, saved.outcome, me.order);
        let next = cleared(Condition::Standby(outcome), c);
        return becomes(next);
    }
    passed_over(c)
}

// A new order: all but the stopped begin at stage 0.
pub fn renew(c: Controller) -> Controller
    ensures { result ≡ renew c }
{
    cleared(renewed_condition(c.condition), c)
}
