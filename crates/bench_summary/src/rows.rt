// What a C line shows of a controller.
ghost use Rattle.std.specs.Prelude.{◌≡◌};
ghost use Rattle.bench_summary.specs.Summary.{row_in, row_of};

use bench_report::Row;
use model::Outcome;
use protocol::{Condition, Station};

// A controller in this condition, its gate at this position.
fn row_in(condition: Condition, position: u32) -> Row
    ensures { result ≡ row_in condition position }
{
    match condition {
        Condition::Running(p) => {
            let outcome = p.outcome;
            Row {
                stage: p.phase,
                outcome,
                position,
            }
        }
        Condition::Stopped => Row {
            stage: 8,
            outcome: Outcome::None,
            position,
        },
        Condition::Standby(outcome) => Row {
            stage: 9,
            outcome,
            position,
        },
    }
}

pub(crate) fn row_of(s: Station) -> Row
    ensures { result ≡ row_of s }
{
    let c = s.controller;
    let condition = c.condition;
    let position = c.gate.position;
    row_in(condition, position)
}
