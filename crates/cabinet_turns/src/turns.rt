// What each accepted call makes of a cabinet.
ghost use Rattle.std.specs.Prelude.{◌≡◌, replicate};
ghost use Rattle.ground.specs.Limit.{limit};
ghost use Rattle.votes.specs.VoteSets.{empty};
ghost use Rattle.model.specs.declared.Outcome.TheVariants.{None};
ghost use Rattle.protocol.specs.Alone.{in_order};
ghost use Rattle.protocol.specs.Controllers.{in_phase, blank};
ghost use Rattle.protocol.specs.Benches.{unsent_all};
ghost use Rattle.protocol.specs.Calls.{stop, restore};
ghost use Rattle.model.specs.Refusals.{numbered_by};
ghost use Rattle.cabinet_turns.specs.Turns.{answered, no_ballots, begun, ordered, voted, timed_out, decided};
ghost use Rattle.cabinet_turns.specs.Turns.{halted, later_order, woken_by, woken};

use ballot_rules::{new_acceptor, new_tally, no_promise};
use cabinet_state::{BallotState, Cabinet};
use controller::{decide, renew, restore, stop, timeout, vote};
use controller_state::{blank, in_phase, sent_after, unsent_all};
use ground::LIMIT;
use model::{Checkpoint, Numbered, Outcome};
use protocol::{Answer, Controller, Identity};
use records::flag_of;
use votes::empty_set;

// The cabinet after an answer of its controller.
pub(crate) fn answered(s: Cabinet, a: Answer) -> Cabinet
    ensures { result ≡ answered s a }
{
    let me = s.me;
    let sent = sent_after(s.sent, a.sends);
    let controller = a.controller;
    let ballots = s.ballots;
    Cabinet {
        me,
        own: s.own,
        controller,
        sent,
        ballots,
    }
}

// "A new order forgets ballots, promises and takings."
fn no_ballots() -> BallotState
    ensures { result ≡ no_ballots }
{
    let acceptor = new_acceptor();
    let report = no_promise();
    let tally = new_tally();
    BallotState {
        acceptor,
        report,
        opened: 0,
        tally,
        accepted_by: 0,
    }
}

// A controller that has just begun, its gate where it stands.
fn begun_controller(position: u32) -> Controller
    ensures { result ≡ blank (in_phase 0 None) (replicate limit empty) position }
{
    blank(in_phase(0, Outcome::None), [empty_set(); LIMIT], position)
}

// Begun: in no order yet.
pub fn begun(n: u8, f: u8, id: u8, own: u8, position: u32) -> Cabinet
    ensures { result ≡ begun n f id own position }
{
    let controller = begun_controller(position);
    let sent = unsent_all();
    let ballots = no_ballots();
    Cabinet {
        me: Identity { n, f, id, order: 0 },
        own: flag_of(own),
        controller,
        sent,
        ballots,
    }
}

fn in_order(me: Identity, order: u32) -> Identity
    ensures { result ≡ in_order me order }
{
    Identity {
        n: me.n,
        f: me.f,
        id: me.id,
        order,
    }
}

// A cabinet in an order of which it has sent nothing.
fn unsent_in(order: u32, s: Cabinet, controller: Controller) -> Cabinet
    ensures { result ≡ record {
      me = in_order s.me order;
      own = s.own;
      controller = controller;
      sent = unsent_all;
      ballots = no_ballots;
    } }
{
    let me = in_order(s.me, order);
    let sent = unsent_all();
    let ballots = no_ballots();
    Cabinet {
        me,
        own: s.own,
        controller,
        sent,
        ballots,
    }
}

// A new order: what was sent in the one before is not sent again.
pub fn ordered(order: u32, s: Cabinet) -> Cabinet
    ensures { result ≡ ordered order s }
{
    unsent_in(order, s, renew(s.controller))
}

// Its vote.
pub fn voted(willing: u8, target: u32, s: Cabinet) -> Cabinet
    ensures { result ≡ voted willing target s }
{
    answered(s, vote(s.me, flag_of(willing), target, s.controller))
}

// A wait is over: the stage says which.
pub fn timed_out(s: Cabinet) -> Cabinet
    ensures { result ≡ timed_out s }
{
    answered(s, timeout(s.me, s.controller))
}

// The arbiter's word, or the one that a ballot has settled.
pub fn decided(to_move: u8, s: Cabinet) -> Cabinet
    ensures { result ≡ decided to_move s }
{
    answered(s, decide(flag_of(to_move), s.controller))
}

// It ends everything but the position of its gate; what it has sent stays in the list.
pub fn halted(s: Cabinet) -> Cabinet
    ensures { result ≡ halted s }
{
    answered(s, stop(s.controller))
}

// A card may be older than the state: it leads back to no earlier order.
#[tactic(auto, unfolding(crate::specs::Turns::later_order))]
fn later_order(order: u32, saved: u32) -> u32
    ensures { result ≡ later_order order saved }
{
    order.max(saved)
}

// Stopped, and restored from a card.
fn standing_by(me: Identity, p: Checkpoint, c: Controller) -> Controller
    ensures { result ≡ (restore me p (stop c).controller).controller }
{
    let a = stop(c);
    let b = restore(me, p, a.controller);
    b.controller
}

// It stands by, and nothing is left to send: it may have voted in this order before.
fn woken_by(p: Checkpoint, s: Cabinet) -> Cabinet
    ensures { result ≡ woken_by p s }
{
    let order = later_order(s.me.order, p.order);
    unsent_in(
        order,
        s,
        standing_by(in_order(s.me, order), p, s.controller),
    )
}

// What is refused changes nothing.
pub fn woken<Q: Numbered>(card: Result<Checkpoint, Q>, s: Cabinet) -> Cabinet
    ensures { result ≡ woken (numbered_by Q.number card) s }
{
    match card {
        Ok(p) => woken_by(p, s),
        Err(_) => s,
    }
}
