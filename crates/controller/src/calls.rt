// A vote is asked for, a message arrives, a timeout (document 01: a bell) is over.
ghost use Rattle.std.specs.Prelude.{◌≡◌, ◌&&◌};
ghost use Rattle.protocol.specs.Controllers.{runs};
ghost use Rattle.protocol.specs.Calls.{valid_identity, vote, addressed, tested, receive, timeout};

use controller_rules::{arrives, contradicts_held, first_timeout, second_timeout, vote_rule};
use controller_state::{
    contradicted, drop_contradicting, is_running, is_taken, passed_over, phase_in,
};
use message_record::suits;
use model::{Message, is_controller, route, sizes_in_range};
use protocol::{Answer, Controller, Identity};
use votes::{VoteSet, single};

// A controller of a lock, in an order.
pub(crate) fn valid_identity(me: Identity) -> bool
    ensures { result ≡ valid_identity me }
{
    if !sizes_in_range(me.n, me.f) {
        return false;
    }
    if !is_controller(me.n, me.id) {
        return false;
    }
    1 <= me.order
}

// It is one, and runs.
fn takes_part(me: Identity, c: Controller) -> bool
    ensures { result ≡ (valid_identity me && runs c) }
{
    if !valid_identity(me) {
        return false;
    }
    is_running(c.condition)
}

// Its vote, willing or not, and the target of its gate: taken at stage 0. An acknowledgement held that it contradicts counts as not received.
pub fn vote(me: Identity, willing: bool, target: u32, c: Controller) -> Answer
    ensures { result ≡ vote me willing target c }
{
    if !takes_part(me, c) {
        return passed_over(c);
    }
    if phase_in(c.condition) != 0 {
        return passed_over(c);
    }
    let held = drop_contradicting(me.n, single(me.id, willing), c);
    vote_rule(me.n, me.f, me.id, willing, target, held)
}

// Is a message of this order, n and f, meant for this controller, and may it travel so?
fn addressed(me: Identity, m: Message) -> bool
    ensures { result ≡ addressed me m }
{
    if m.order != me.order {
        return false;
    }
    if m.n != me.n {
        return false;
    }
    if m.f != me.f {
        return false;
    }
    if m.to != me.id {
        return false;
    }
    if !is_controller(me.n, m.from) {
        return false;
    }
    route(me.f, m.kind, m.from, me.id)
}

// The answer a to a vote set, unless it was taken and the vote set contradicts one that is held.
fn tested(n: u8, s: VoteSet, c: Controller, a: Answer) -> Answer
    ensures { result ≡ tested n s c a }
{
    if !is_taken(a.reception) {
        return a;
    }
    if contradicts_held(n, c, s) {
        return contradicted(c);
    }
    a
}

// A message arrives. What reading would have refused is passed over; a vote set that contradicts one held is refused with 24.
pub fn receive(me: Identity, m: Message, c: Controller) -> Answer
    ensures { result ≡ receive me m c }
{
    if !takes_part(me, c) {
        return passed_over(c);
    }
    if !addressed(me, m) {
        return passed_over(c);
    }
    if !suits(m) {
        return passed_over(c);
    }
    let s = m.votes;
    tested(me.n, s, c, arrives(m.kind, me.n, me.f, m.from, s, c))
}

// The first timeout is at stage 1, the second at stage 2.
pub fn timeout(me: Identity, c: Controller) -> Answer
    ensures { result ≡ timeout me c }
{
    if !takes_part(me, c) {
        return passed_over(c);
    }
    let phase = phase_in(c.condition);
    if phase == 1 {
        return first_timeout(me.n, me.f, me.id, c);
    }
    if phase == 2 {
        return second_timeout(me.n, me.f, me.id, c);
    }
    passed_over(c)
}
