// What a keeper's display shows.
ghost use Rattle.std.specs.Prelude.{◌≡◌};
ghost use Rattle.protocol.specs.Display.{stage_shown};
ghost use Rattle.cabinet_turns.specs.Shown.{shown};

use crate::ballots::settled;
use cabinet_state::{Cabinet, wide};
use controller_state::outcome_in;
use protocol::Condition;

fn stage_shown(k: Condition) -> u8
    ensures { result ≡ stage_shown k }
{
    match k {
        Condition::Running(p) => p.phase,
        Condition::Stopped => 8,
        Condition::Standby(_) => 9,
    }
}

pub fn shown(s: Cabinet) -> [u32; 7]
    ensures { result ≡ shown s }
{
    let c = s.controller;
    let k = c.condition;
    let proposal = c.proposal;
    let stage = wide(stage_shown(k));
    let outcome = wide(u8::from(outcome_in(k)));
    let put = wide(u8::from(proposal));
    let settled_word = wide(u8::from(settled(s)));
    let highest = wide(s.ballots.acceptor.highest);
    [
        s.me.order,
        stage,
        outcome,
        c.gate.position,
        put,
        settled_word,
        highest,
    ]
}
