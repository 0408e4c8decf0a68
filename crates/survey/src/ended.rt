// How a schedule ended, by what the bench shows at its end.
ghost use Rattle.std.specs.Prelude.{◌≡◌, ◌&&◌, ◌||◌};
ghost use Rattle.survey.specs.Ended.{is_present, ended_if, any_present, all_ended, ending_of};

use crate::Ending;
use bench_report::{Row, Summary, row_at};
use model::{is_move, is_stay};

// "stage (8 stopped, 9 standing by)"
const STOPPED: u8 = 8;

fn is_present(row: Row) -> bool
    ensures { result ≡ is_present row }
{
    row.stage != STOPPED
}

// Is a controller left that is not stopped?
fn any_present(end: Summary) -> bool
    ensures { result ≡ any_present end }
{
    for i in 0..end.n as usize {
        if is_present(row_at(end.rows, i)) {
            return true;
        }
    }
    false
}

// Is this controller stopped, or did it end Move, or Stay?
fn ended_if(moving: bool, row: Row) -> bool
    ensures { result ≡ ended_if moving row }
{
    if !is_present(row) {
        return true;
    }
    if moving {
        return is_move(row.outcome);
    }
    is_stay(row.outcome)
}

// Did every controller not stopped end Move, or Stay?
fn all_ended(moving: bool, end: Summary) -> bool
    ensures { result ≡ all_ended moving end }
{
    for i in 0..end.n as usize {
        if !ended_if(moving, row_at(end.rows, i)) {
            return false;
        }
    }
    true
}

pub fn ending_of(end: Summary) -> Ending
    ensures { result ≡ ending_of end }
{
    if !any_present(end) {
        return Ending::Rest;
    }
    if all_ended(true, end) {
        return Ending::Moved;
    }
    if all_ended(false, end) {
        return Ending::Stayed;
    }
    Ending::Rest
}
