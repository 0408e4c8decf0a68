// The questions put to the record's numbers.
ghost use Rattle.std.specs.Prelude.{◌≡◌};
ghost use Rattle.model.specs.Refusals.{reply_of};
ghost use Rattle.survey.specs.Questions.{numbers_in_range, refusal_of};

use generator::MOST_DRAWN;
use model::{Refusal, sizes_in_range};

// The most schedules of a report.
const MOST_SCHEDULES: u32 = 1000;

// The last number is tested without its sum, which 32 bits may not hold.
#[tactic(auto, unfolding(crate::specs::Questions::numbers_in_range))]
fn numbers_in_range(s: u32, k: u32) -> bool
    ensures { result ≡ numbers_in_range s k }
{
    1 <= k && k <= MOST_SCHEDULES && 1 <= s && k - 1 <= u32::MAX - s
}

// Whether there is such a report: first n and f are asked, then the numbers, then a count above the generator's 4,000.
pub fn refusal_of(n: u8, f: u8, count: u32, s: u32, k: u32) -> Result<(), Refusal>
    ensures { reply_of result ≡ refusal_of n f count s k }
{
    if !sizes_in_range(n, f) {
        return Err(Refusal::Sizes);
    }
    if !numbers_in_range(s, k) {
        return Err(Refusal::Schedules);
    }
    if MOST_DRAWN < count {
        return Err(Refusal::Drawn);
    }
    Ok(())
}
