// Where the benches before the remembered events lie. Who plays acts by `bench_back::act` lays the bench before each act at the place `at` of a ring; what is
// remembered are the `count` places before it.
#![tactic(auto)]

ghost use Rattle.std.specs.Prelude.{◌<◌, ◌+◌, ◌-◌, min, ◌≡◌};
ghost use Rattle.steps_back.specs.Memory.{most_remembered};
ghost use Rattle.bench_ring.specs.Rings.{places, place_before, place_after, ring_after};

use bench_back::Recall;
use steps_back::MOST_REMEMBERED;

// One place more than are remembered, so that the next place is always free.
pub const PLACES: usize = MOST_REMEMBERED + 1;

#[derive(Clone, Copy)]
pub struct Ring {
    pub at: usize,
    pub count: usize,
}

// The place of the newest.
pub fn place_before(at: usize) -> usize
    ensures { (result ≡ place_before at) × (at < places → result < places) }
{
    if at == 0 {
        return MOST_REMEMBERED;
    }
    at - 1
}

fn place_after(at: usize) -> usize
    ensures { result ≡ place_after at }
{
    if at < MOST_REMEMBERED {
        return at + 1;
    }
    0
}

fn one_more(count: usize) -> usize
    ensures { result ≡ min most_remembered (count + 1) }
{
    count.saturating_add(1).min(MOST_REMEMBERED)
}

// The ring after an act.
pub fn ring_after(ring: Ring, recall: Recall) -> Ring
    ensures { (result ≡ ring_after ring recall) × (ring.at < places → result.at < places) }
{
    match recall {
        Recall::Same => ring,
        Recall::More => Ring {
            at: place_after(ring.at),
            count: one_more(ring.count),
        },
        Recall::Fewer => Ring {
            at: place_before(ring.at),
            count: ring.count.saturating_sub(1),
        },
        Recall::Nothing => Ring { count: 0, ..ring },
    }
}
