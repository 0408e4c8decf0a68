// The parts of a bench, as they begin.
ghost use Rattle.std.specs.Prelude.{◌≡◌, replicate};
ghost use Rattle.ground.specs.Limit.{limit};
ghost use Rattle.votes.specs.VoteSets.{empty};
ghost use Rattle.protocol.specs.Benches.{fresh_station, no_consensus, all_undecided, bench_of, new_bench};

use ballot_rules::new_ballots;
use controller_state::{fresh, unsent_all};
use ground::LIMIT;
use model::Outcome;
use protocol::{Bench, Consensus, Counts, Shared, Station};
use votes::empty_set;

pub fn fresh_station() -> Station
    ensures { result ≡ fresh_station (replicate limit empty) }
{
    Station {
        controller: fresh(),
        sent: unsent_all(),
        saved: None,
    }
}

// No word put, no choice.
pub(crate) fn no_consensus() -> Consensus
    ensures { result ≡ no_consensus }
{
    Consensus {
        move_proposed: false,
        stay_proposed: false,
        decision: Outcome::None,
    }
}

// As many undecided as present.
pub fn all_undecided(present: u8) -> Counts
    ensures { result ≡ all_undecided present }
{
    Counts {
        undecided: present,
        present,
    }
}

// What is shared where no order was opened yet.
fn shared_of(locked: bool, n: u8, f: u8, own: bool) -> Shared
    ensures { result ≡ (bench_of locked n f own).shared }
{
    let consensus = no_consensus();
    Shared {
        locked,
        n,
        f,
        own,
        order: 0,
        consensus,
        counts: all_undecided(n),
    }
}

// What is shared on a new bench.
pub fn new_shared() -> Shared
    ensures { result ≡ new_bench.shared }
{
    shared_of(false, 0, 0, false)
}

// A bench whose controllers have just begun.
pub fn bench_of(locked: bool, n: u8, f: u8, own: bool) -> Bench
    ensures { result ≡ bench_of locked n f own }
{
    Bench {
        shared: shared_of(locked, n, f, own),
        ballots: new_ballots(),
        stations: [fresh_station(); LIMIT],
    }
}

// A bench without lock, order, messages, words or checkpoints.
pub fn new_bench() -> Bench
    ensures { result ≡ new_bench }
{
    bench_of(false, 0, 0, false)
}
