// The count of gates still open, after one controller has changed.
ghost use Rattle.std.specs.Prelude.{◌≡◌};
ghost use Rattle.protocol.specs.Counts.{lacks_outcome, recount, counts_after};

use controller_state::{bump, is_present, is_running, outcome_in};
use model::is_none;
use protocol::{Condition, Counts};

// Does it run without an outcome?
fn lacks_outcome(k: Condition) -> bool
    ensures { result ≡ lacks_outcome k }
{
    is_running(k) && is_none(outcome_in(k))
}

// A count, after one controller has changed: was it counted before, and is it now?
fn recount(before: bool, after: bool, k: u8) -> u8
    ensures { result ≡ recount before after k }
{
    match (before, after) {
        (true, false) => k.saturating_sub(1),
        (false, true) => bump(k),
        _ => k,
    }
}

// 13 and the panel go by these counts, so that no event looks at every controller.
pub fn counts_after(before: Condition, after: Condition, k: Counts) -> Counts
    ensures { result ≡ counts_after before after k }
{
    Counts {
        undecided: recount(lacks_outcome(before), lacks_outcome(after), k.undecided),
        present: recount(is_present(before), is_present(after), k.present),
    }
}
