// What two ranges say of a gate's willingness, and the vote.
ghost use Rattle.std.specs.Prelude.{◌≡◌};
ghost use Rattle.model.specs.Refusals.{numbered, numbered_by};
ghost use Rattle.levels.specs.Heights.{Listed, by_heights};
ghost use Rattle.levels.specs.Ends.{willingness};
ghost use Rattle.levels.specs.Judged.{Judged, votes};

use crate::heights::{Heights, both_listed, raised_range};
use crate::{Range, Willingness};
use model::{Numbered, Refusal};

// The greatest head, in mm, with which a gate is willing, either way.
const LIMIT: u32 = 150;

// The heads of all pairs fill the interval from that of the low level above and the high one below to that of the high one above and the
// low one below, so these two decide.
#[tactic(auto, unfolding(crate::specs::Heights::by_heights))]
fn by_heights(above: Heights, below: Heights) -> Willingness
    requires listed { Listed above }
    requires listed_2 { Listed below }
    ensures { result ≡ by_heights above below }
{
    // the greatest head is below −150, or the least above 150
    if above.high + LIMIT < below.low {
        return Willingness::CertainlyUnwilling;
    }
    if below.high + LIMIT < above.low {
        return Willingness::CertainlyUnwilling;
    }
    // the least is below −150, or the greatest above 150
    if above.low + LIMIT < below.high {
        return Willingness::Unsure;
    }
    if below.low + LIMIT < above.high {
        return Willingness::Unsure;
    }
    Willingness::Willing
}

// What the range above a gate and the one below it say: the answer that is right of every pair of levels within them, or the first question that they fail.
pub fn judge(above: Range, below: Range) -> Result<Willingness, Refusal>
    ensures right { Judged above below (numbered result) }
    ensures by_ends { numbered result ≡ willingness above below }
{
    let a = raised_range(above);
    let b = raised_range(below);
    if !both_listed(a) {
        return Err(Refusal::LevelRange);
    }
    if !both_listed(b) {
        return Err(Refusal::LevelRange);
    }
    if a.high < a.low {
        return Err(Refusal::LevelOrder);
    }
    if b.high < b.low {
        return Err(Refusal::LevelOrder);
    }
    Ok(by_heights(a, b))
}

// The gate's vote: only "willing" is a willing one, whatever number a refusal has.
#[tactic(auto, unfolding(crate::specs::Judged::votes))]
pub fn vote<Q: Numbered>(answer: Result<Willingness, Q>) -> bool
    ensures { result ≡ votes (numbered_by Q.number answer) }
{
    matches!(answer, Ok(Willingness::Willing))
}
