// The questions of each call, in the documents' sequence. Each function refuses with the first "no".
#![tactic(auto, unfolding(model::specs::Questions::first_no, model::specs::Questions::unless, crate::specs::Asked::begin_asked, crate::specs::Asked::order_asked, crate::specs::Asked::vote_asked, crate::specs::Asked::timeout_asked, crate::specs::Asked::decide_asked, crate::specs::Asked::present_asked, crate::specs::Asked::may_follow, crate::specs::Asked::own_card, crate::specs::Asked::wake_asked))]

ghost use Rattle.std.specs.Prelude.{◌≡◌, ◌||◌, [], ◌∷◌, eqb};
ghost use Rattle.model.specs.Questions.{ask, first_no};
ghost use Rattle.model.specs.Refusals.{numbered_by, reply_by, reply_of};
ghost use Rattle.protocol.specs.Controllers.{is_standby, phase_in};
ghost use Rattle.cabinet_turns.specs.Asked.{begin_asked, may_follow, order_asked, vote_asked, timeout_asked};
ghost use Rattle.cabinet_turns.specs.Asked.{decide_asked, present_asked, own_card, wake_asked};

use controller_state::{is_present, is_running, is_standby, outcome_in, phase_in};
use model::{
    Checkpoint, Numbered, Refusal, ask, is_controller, is_none, position_in_range, sizes_in_range,
};
use protocol::{Condition, Identity};
use records::is_flag;

// To begin. There is no state yet of which 2 and 3 could be asked.
pub fn begin_question(n: u8, f: u8, id: u8, own: u8, position: u32) -> Result<(), Refusal>
    ensures { reply_of result ≡ first_no (begin_asked n f id own position) }
{
    ask(is_flag(own), Refusal::Listed)?;
    ask(sizes_in_range(n, f), Refusal::Sizes)?;
    ask(is_controller(n, id), Refusal::Controllers)?;
    ask(position_in_range(position), Refusal::Position)
}

// Was no order opened yet, or does it not run without outcome?
fn may_follow(order: u32, k: Condition) -> bool
    ensures { result ≡ may_follow order k }
{
    order == 0 || !is_running(k) || !is_none(outcome_in(k))
}

// A new order. A cabinet sees no gate but its own, so 13 asks of that alone.
pub fn order_question(order: u32, last: u32, k: Condition) -> Result<(), Refusal>
    ensures { reply_of result ≡ first_no (order_asked order last k) }
{
    ask(1 <= order, Refusal::OrderNumber)?;
    ask(last < order, Refusal::LaterOrder)?;
    ask(may_follow(last, k), Refusal::GatesClosed)
}

// Its vote: at stage 0 alone, so once in an order.
pub fn vote_question(willing: u8, target: u32, order: u32, k: Condition) -> Result<(), Refusal>
    ensures { reply_of result ≡ first_no (vote_asked willing target order k) }
{
    ask(is_flag(willing), Refusal::Listed)?;
    ask(position_in_range(target), Refusal::Position)?;
    ask(1 <= order, Refusal::OrderOpen)?;
    ask(is_running(k), Refusal::Condition)?;
    ask(phase_in(k) == 0, Refusal::Stage)
}

// Is it at stage 1 or 2?
fn may_time_out(phase: u8) -> bool
    ensures { result ≡ (eqb phase 1 || eqb phase 2) }
{
    phase == 1 || phase == 2
}

// A timeout: it ends one of the two waits.
pub fn timeout_question(order: u32, k: Condition) -> Result<(), Refusal>
    ensures { reply_of result ≡ first_no (timeout_asked order k) }
{
    ask(1 <= order, Refusal::OrderOpen)?;
    ask(is_running(k), Refusal::Condition)?;
    ask(may_time_out(phase_in(k)), Refusal::Stage)
}

// Does it stand by, or is it at stage 3?
fn may_decide(k: Condition) -> bool
    ensures { result ≡ (is_standby k || eqb (phase_in k) 3) }
{
    is_standby(k) || phase_in(k) == 3
}

// The arbiter's word. 18 is not asked: a cabinet cannot know what the others have put.
pub fn decide_question(to_move: u8, order: u32, k: Condition) -> Result<(), Refusal>
    ensures { reply_of result ≡ first_no (decide_asked to_move order k) }
{
    ask(is_flag(to_move), Refusal::Listed)?;
    ask(1 <= order, Refusal::OrderOpen)?;
    ask(is_present(k), Refusal::Condition)?;
    ask(may_decide(k), Refusal::Stage)
}

// Of a stop and of a save.
pub fn present_question(order: u32, k: Condition) -> Result<(), Refusal>
    ensures { reply_of result ≡ first_no (present_asked order k) }
{
    ask(1 <= order, Refusal::OrderOpen)?;
    ask(is_present(k), Refusal::Condition)
}

// Is the card this controller's own?
fn own_card(me: Identity, p: Checkpoint) -> bool
    ensures { result ≡ own_card me p }
{
    p.id == me.id && p.n == me.n && p.f == me.f
}

// 30, the library's own: on the bench each controller has its own card.
fn card_question(me: Identity, p: Checkpoint) -> Result<(), Refusal>
    ensures { reply_of result ≡ first_no (ask 30 (own_card me p) ∷ []) }
{
    ask(own_card(me, p), Refusal::OwnCard)
}

// To wake: what reading the card asks comes first.
pub fn wake_question<Q: Numbered>(card: Result<Checkpoint, Q>, me: Identity) -> Result<(), Q>
    ensures { reply_by Q.number result ≡ first_no (wake_asked (numbered_by Q.number card) me) }
{
    match card_question(me, card?) {
        Ok(()) => Ok(()),
        Err(q) => Err(Q::of(q)),
    }
}
