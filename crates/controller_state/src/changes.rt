// The small changes that the rules are made of.
ghost use Rattle.std.specs.Prelude.{◌≡◌, replicate};
ghost use Rattle.ground.specs.Limit.{limit};
ghost use Rattle.votes.specs.VoteSets.{empty};
ghost use Rattle.protocol.specs.Benches.{fresh};
ghost use Rattle.protocol.specs.Controllers.{blank, cleared, advance, learn, aim, freeze, await, propose, conclude};

use crate::conditions::{in_phase, landing, noting, outcome_in};
use ground::LIMIT;
use model::Outcome;
use protocol::{Acks, Cnt, CntHelp, Condition, Controller, Gate, HelpAnswers, HelpState};
use votes::{VoteSet, agreed_or, empty_set, join};

// A controller of this condition that holds nothing. What stands in its list of acknowledgements no longer counts.
pub fn blank(condition: Condition, sets: [VoteSet; LIMIT], position: u32) -> Controller
    ensures { result ≡ blank condition sets position }
{
    Controller {
        condition,
        votes: empty_set(),
        acks: Acks {
            sets,
            from: 0,
            cnt: Cnt(0),
        },
        helped: HelpAnswers {
            votes: empty_set(),
            from: 0,
            cnt_help: CntHelp(0),
        },
        help: HelpState {
            waiting: false,
            votes: empty_set(),
            callers: 0,
        },
        proposal: Outcome::None,
        gate: Gate {
            target: 0,
            position,
        },
    }
}

// A controller that has just begun.
pub fn fresh() -> Controller
    ensures { result ≡ fresh (replicate limit empty) }
{
    blank(in_phase(0, Outcome::None), [empty_set(); LIMIT], 0)
}

// It holds nothing but its position.
pub fn cleared(condition: Condition, c: Controller) -> Controller
    ensures { result ≡ cleared condition c }
{
    blank(condition, c.acks.sets, c.gate.position)
}

// To a later stage.
pub fn advance(c: Controller, phase: u8) -> Controller
    ensures { result ≡ advance c phase }
{
    Controller {
        condition: in_phase(phase, outcome_in(c.condition)),
        ..c
    }
}

// A vote set is joined to the controller's own.
pub fn learn(c: Controller, s: VoteSet) -> Controller
    ensures { result ≡ learn c s }
{
    let own = c.votes;
    let votes = agreed_or(own, join(own, s));
    let mut next = c;
    next.votes = votes;
    next
}

// Another target position.
pub fn aim(c: Controller, target: u32) -> Controller
    ensures { result ≡ aim c target }
{
    let mut next = c;
    next.gate.target = target;
    next
}

// The help vote set is frozen; the calls kept remain, to be answered with it.
pub fn freeze(c: Controller, votes: VoteSet) -> Controller
    ensures { result ≡ freeze c votes }
{
    Controller {
        help: HelpState { votes, ..c.help },
        ..c
    }
}

// It waits.
pub fn await_help(c: Controller) -> Controller
    ensures { result ≡ await c }
{
    let mut next = c;
    next.help.waiting = true;
    next
}

// It has put a word, and waits no more.
pub(crate) fn propose(c: Controller, proposal: Outcome) -> Controller
    ensures { result ≡ propose c proposal }
{
    Controller {
        help: HelpState {
            waiting: false,
            ..c.help
        },
        proposal,
        ..c
    }
}

// An outcome is taken if there is none, and waiting ends.
pub fn conclude(c: Controller, o: Outcome) -> Controller
    ensures { result ≡ conclude c o }
{
    Controller {
        condition: noting(c.condition, o),
        help: HelpState {
            waiting: false,
            ..c.help
        },
        gate: Gate {
            position: landing(c.condition, o, c.gate),
            ..c.gate
        },
        ..c
    }
}
