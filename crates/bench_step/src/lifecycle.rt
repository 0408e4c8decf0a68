// The consensus decides for one controller; a controller is stopped, saved, restored. Behind the questions the turn is the whole effect.
ghost use Rattle.std.specs.Prelude.{◌≡◌};
ghost use Rattle.model.specs.declared.Event.TheVariants.{Decide, Stop, Save, Restore};
ghost use Rattle.bench_step.specs.Steps.{stepped, stepped_of};

use crate::stations::{put_back, station_at};
use ballot_rules::is_chosen;
use bench_state::{decide_question, may_give, present_question, restore_question};
use bench_turns::{condition_of, decide_turn, is_saved, restore_turn, save_turn, stop_turn};
use model::Refusal;
use protocol::{Bench, Effect};

pub(crate) fn decide(b: Bench, id: u8, to_move: bool) -> Result<Bench, Refusal>
    ensures { stepped_of b result ≡ stepped b (Decide id to_move) }
{
    let s = station_at(b, id);
    let ballots = b.ballots;
    let rows = ballots.rows;
    let chosen = is_chosen(b.shared.n, rows, to_move);
    let may = may_give(b.shared, chosen, to_move);
    decide_question(b.shared, condition_of(s), may, id)?;
    Ok(put_back(b, id, decide_turn(b.shared, s, to_move)))
}

pub(crate) fn stop(b: Bench, id: u8) -> Result<Bench, Refusal>
    ensures { stepped_of b result ≡ stepped b (Stop id) }
{
    let s = station_at(b, id);
    present_question(b.shared, condition_of(s), id)?;
    Ok(put_back(b, id, stop_turn(b.shared, s)))
}

pub(crate) fn save(b: Bench, id: u8) -> Result<Bench, Refusal>
    ensures { stepped_of b result ≡ stepped b (Save id) }
{
    let s = station_at(b, id);
    present_question(b.shared, condition_of(s), id)?;
    let shared = b.shared;
    let station = save_turn(shared, s, id);
    Ok(put_back(b, id, Effect { shared, station }))
}

pub(crate) fn restore(b: Bench, id: u8) -> Result<Bench, Refusal>
    ensures { stepped_of b result ≡ stepped b (Restore id) }
{
    let s = station_at(b, id);
    restore_question(b.shared, condition_of(s), is_saved(s), id)?;
    Ok(put_back(b, id, restore_turn(b.shared, s)))
}
