// The questions of each event, in document 01's sequence. Each function refuses with the first "no", and asks nothing after it.
#![tactic(auto, unfolding(model::specs::Questions::first_no, model::specs::Questions::unless))]

ghost use Rattle.std.specs.Prelude.{◌≡◌, Bool, true, false};
ghost use Rattle.model.specs.declared.Event.TheVariants.{Lock, Order, Cast, Deliver, Timeout, Decide, Stop, Save, Restore};
ghost use Rattle.model.specs.Refusals.{reply_of};
ghost use Rattle.protocol.specs.Questions.{first_no, questions_of};
ghost use Rattle.bench_state.specs.Parts.{facts_at, own_facts, decide_facts, open_facts};

use crate::tests::{awaits_decision, awaits_timeout};
use controller_state::{is_present, is_running, is_stopped, phase_in};
use ground::has;
use model::{
    Kind, Refusal, ask, different_controllers, is_controller, position_in_range, route,
    sizes_in_range,
};
use protocol::{Condition, Shared};

// A lock: it alone asks that none is set up yet.
pub fn lock_question(m: Shared, n: u8, f: u8) -> Result<(), Refusal>
    ensures { (own : Bool) → reply_of result ≡ first_no (questions_of (open_facts m false) (Lock n f own)) }
{
    ask(sizes_in_range(n, f), Refusal::Sizes)?;
    ask(!m.locked, Refusal::NoLock)
}

// An order. `may_open` is 13, which goes by the count that the bench keeps.
pub fn order_question(m: Shared, may_open: bool, order: u32) -> Result<(), Refusal>
    ensures { reply_of result ≡ first_no (questions_of (open_facts m may_open) (Order order)) }
{
    ask(m.locked, Refusal::LockSetUp)?;
    ask(1 <= order, Refusal::OrderNumber)?;
    ask(m.order < order, Refusal::LaterOrder)?;
    ask(may_open, Refusal::GatesClosed)
}

// A vote: at stage 0 alone, so once in an order.
pub fn cast_question(m: Shared, k: Condition, id: u8, target: u32) -> Result<(), Refusal>
    ensures { (willing : Bool) → reply_of result ≡ first_no (questions_of (own_facts m k) (Cast id willing target)) }
{
    ask(m.locked, Refusal::LockSetUp)?;
    ask(is_controller(m.n, id), Refusal::Controllers)?;
    ask(position_in_range(target), Refusal::Position)?;
    ask(1 <= m.order, Refusal::OrderOpen)?;
    ask(is_running(k), Refusal::Condition)?;
    ask(phase_in(k) == 0, Refusal::Stage)
}

// A delivery. `receivers` is to whom the message was sent (17); `agrees` is 24, which the receiver's own answer says.
pub fn deliver_question(
    m: Shared,
    k: Condition,
    receivers: u32,
    agrees: bool,
    from: u8,
    to: u8,
    kind: Kind,
) -> Result<(), Refusal>
    ensures { reply_of result ≡ first_no (questions_of (facts_at m k false receivers agrees) (Deliver from to kind)) }
{
    ask(m.locked, Refusal::LockSetUp)?;
    ask(different_controllers(m.n, from, to), Refusal::Controllers)?;
    ask(route(m.f, kind, from, to), Refusal::Route)?;
    ask(1 <= m.order, Refusal::OrderOpen)?;
    ask(is_running(k), Refusal::Condition)?;
    ask(has(receivers, to), Refusal::Sent)?;
    ask(agrees, Refusal::Contradiction)
}

// A timeout: it ends one of the two waits.
pub fn timeout_question(m: Shared, k: Condition, id: u8) -> Result<(), Refusal>
    ensures { reply_of result ≡ first_no (questions_of (own_facts m k) (Timeout id)) }
{
    ask(m.locked, Refusal::LockSetUp)?;
    ask(is_controller(m.n, id), Refusal::Controllers)?;
    ask(1 <= m.order, Refusal::OrderOpen)?;
    ask(is_running(k), Refusal::Condition)?;
    ask(awaits_timeout(k), Refusal::Stage)
}

// The arbiter's word, which one standing by is told too. `may_give` is 18.
pub fn decide_question(m: Shared, k: Condition, may_give: bool, id: u8) -> Result<(), Refusal>
    ensures { (move : Bool) → reply_of result ≡ first_no (questions_of (decide_facts m k may_give) (Decide id move)) }
{
    ask(m.locked, Refusal::LockSetUp)?;
    ask(is_controller(m.n, id), Refusal::Controllers)?;
    ask(1 <= m.order, Refusal::OrderOpen)?;
    ask(is_present(k), Refusal::Condition)?;
    ask(awaits_decision(k), Refusal::Stage)?;
    ask(may_give, Refusal::WordPut)
}

// Stop and save have the same questions.
pub fn present_question(m: Shared, k: Condition, id: u8) -> Result<(), Refusal>
    ensures value { reply_of result ≡ first_no (questions_of (own_facts m k) (Stop id)) }
    ensures value_2 { reply_of result ≡ first_no (questions_of (own_facts m k) (Save id)) }
{
    ask(m.locked, Refusal::LockSetUp)?;
    ask(is_controller(m.n, id), Refusal::Controllers)?;
    ask(1 <= m.order, Refusal::OrderOpen)?;
    ask(is_present(k), Refusal::Condition)
}

// A restore: of one that is stopped and was saved.
pub fn restore_question(m: Shared, k: Condition, saved: bool, id: u8) -> Result<(), Refusal>
    ensures { reply_of result ≡ first_no (questions_of (facts_at m k saved 0 true) (Restore id)) }
{
    ask(m.locked, Refusal::LockSetUp)?;
    ask(is_controller(m.n, id), Refusal::Controllers)?;
    ask(1 <= m.order, Refusal::OrderOpen)?;
    ask(is_stopped(k), Refusal::Condition)?;
    ask(saved, Refusal::Saved)
}
