// A level as a height above −100,000 mm: levels of the range are 0 to 200,000, and their sums and tests need no sign.
ghost use Rattle.std.specs.Prelude.{◌≡◌, ◌&&◌};
ghost use Rattle.levels.specs.Heights.{Raised, RaisedRange, both_listed};

use crate::Range;

// What is added to a level, and the height of the highest.
const RISE: u32 = 100000;

const HIGHEST: u32 = 200000;

#[derive(Clone, Copy)]
pub(crate) struct Heights {
    pub(crate) low: u32,
    pub(crate) high: u32,
}

fn raised(level: u32) -> u32
    ensures { Raised level result }
{
    level.wrapping_add(RISE)
}

pub(crate) fn raised_range(r: Range) -> Heights
    ensures { RaisedRange r result }
{
    Heights {
        low: raised(r.low),
        high: raised(r.high),
    }
}

// Are both levels in range?
pub(crate) fn both_listed(h: Heights) -> bool
    ensures { result ≡ both_listed h }
{
    h.low <= HIGHEST && h.high <= HIGHEST
}
