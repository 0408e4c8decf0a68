// A lock makes a new bench, an order renews every station and forgets the ballots.
ghost use Rattle.std.specs.Prelude.{◌≡◌, map};
ghost use Rattle.model.specs.declared.Event.TheVariants.{Lock, Order};
ghost use Rattle.protocol.specs.Steps.{renewed, perform};
ghost use Rattle.bench_step.specs.Steps.{stepped, stepped_of};

use ballot_rules::new_ballots;
use bench_state::{bench_of, lock_question, may_open, order_opened, order_question};
use bench_turns::renewed;
use ground::LIMIT;
use model::Refusal;
use protocol::{Bench, Station};

pub(crate) fn lock(b: Bench, n: u8, f: u8, own: bool) -> Result<Bench, Refusal>
    ensures { stepped_of b result ≡ stepped b (Lock n f own) }
{
    lock_question(b.shared, n, f)?;
    Ok(bench_of(true, n, f, own))
}

fn renew_all(stations: [Station; LIMIT]) -> [Station; LIMIT]
    ensures { result ≡ map renewed stations }
{
    let mut all = stations;
    for at in 0..LIMIT {
        all[at] = renewed(all[at]);
    }
    all
}

// The bench in a new order.
fn opened(b: Bench, order: u32) -> Bench
    ensures { result ≡ perform b (Order order) }
{
    let shared = order_opened(b.shared, order);
    let stations = b.stations;
    let renewed = renew_all(stations);
    Bench {
        shared,
        ballots: new_ballots(),
        stations: renewed,
    }
}

pub(crate) fn open(b: Bench, order: u32) -> Result<Bench, Refusal>
    ensures { stepped_of b result ≡ stepped b (Order order) }
{
    order_question(b.shared, may_open(b.shared), order)?;
    Ok(opened(b, order))
}
