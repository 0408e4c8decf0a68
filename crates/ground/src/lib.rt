// What everything stands on: general laws of tests, counts and lists (specs/), and sets of controllers as masks.
#![tactic(auto)]

ghost use Rattle.std.specs.Prelude.{◌≡◌, min};
ghost use Rattle.ground.specs.Limit.{limit};

mod lists;
mod mask;

pub use lists::{nth, put};
pub use mask::{full_to, has, insert, none_above, remove, size, up_to, within};

// The most controllers that a lock has.
pub const LIMIT: usize = 32;

// The definitions' limit is the code's.
pub fn limit_is_one() -> usize
    ensures { result ≡ limit }
{
    LIMIT
}

// The smaller of n and the limit.
pub fn up_to_limit(n: u8) -> u8
    ensures { result ≡ min n limit }
{
    n.min(LIMIT as u8)
}
