// What single questions test.
ghost use Rattle.std.specs.Prelude.{◌≡◌, cond, not, ◌&&◌, ◌||◌, eqb};
ghost use Rattle.model.specs.Numbers.{is_none};
ghost use Rattle.protocol.specs.Controllers.{is_standby, phase_in};
ghost use Rattle.protocol.specs.Questions.{was_proposed, no_other_word};

use controller_state::{is_standby, phase_in};
use model::{Outcome, is_none};
use protocol::{Condition, Consensus, Shared};

// 16, of a timeout.
pub(crate) fn awaits_timeout(k: Condition) -> bool
    ensures { result ≡ (eqb (phase_in k) 1 || eqb (phase_in k) 2) }
{
    let phase = phase_in(k);
    phase == 1 || phase == 2
}

// 16, of the arbiter's word.
pub(crate) fn awaits_decision(k: Condition) -> bool
    ensures { result ≡ (is_standby k || eqb (phase_in k) 3) }
{
    is_standby(k) || phase_in(k) == 3
}

// 18, its first half: "Was the word put in this order".
fn was_proposed(k: Consensus, to_move: bool) -> bool
    ensures { result ≡ was_proposed k to_move }
{
    if to_move {
        return k.move_proposed;
    }
    k.stay_proposed
}

// 18, its second half: "and no other given?"
fn no_other(decision: Outcome, to_move: bool) -> bool
    ensures { result ≡ no_other_word decision to_move }
{
    match decision {
        Outcome::None => true,
        Outcome::Stay => !to_move,
        Outcome::Move => to_move,
    }
}

// 18, where the arbiter settles the word: it was put, and no other given.
fn may_decide(k: Consensus, to_move: bool) -> bool
    ensures { result ≡ (was_proposed k to_move && no_other_word k.decision to_move) }
{
    was_proposed(k, to_move) && no_other(k.decision, to_move)
}

// 18: at a lock that settles the word by ballots, was it chosen in one?
pub fn may_give(m: Shared, chosen: bool, to_move: bool) -> bool
    ensures { result ≡ cond m.own chosen (was_proposed m.consensus to_move && no_other_word m.consensus.decision to_move) }
{
    if m.own {
        return chosen;
    }
    may_decide(m.consensus, to_move)
}

// 29: the lock settles the word by ballots, and the controller has put one.
pub(crate) fn may_settle(own: bool, word: Outcome) -> bool
    ensures { result ≡ (own && not (is_none word)) }
{
    own && !is_none(word)
}
