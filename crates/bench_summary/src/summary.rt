// What the report shows of a bench: a row for each controller, and the messages sent in this order, by kind.
ghost use Rattle.std.specs.Prelude.{◌≡◌, ◌+◌, ◌≤◌};
ghost use Rattle.protocol.specs.declared.Ballots.{Ballots};
ghost use Rattle.bench_summary.specs.Summary.{summary_of, more_sent};

use crate::rows::row_of;
use crate::sending::{place_of, receivers_at};
use bench_report::{MessageCounts, Row, Summary};
use ground::{LIMIT, size};
use model::{Kind, Outcome};
use protocol::{Shared, Station};

// The messages of one controller more, its index and station given: each kind's receivers, counted.
fn counted(t: MessageCounts, n: u8, i: usize, s: Station) -> MessageCounts
    requires { (t.vote ≤ 65280) × ((t.ack ≤ 65280) × ((t.help ≤ 65280) × (t.helped ≤ 65280))) }
    ensures { (result ≡ more_sent t n i s) × ((result.vote ≤ t.vote + 255) × ((result.ack ≤ t.ack + 255) × ((result.help ≤ t.help + 255) × (result.helped ≤ t.helped + 255)))) }
{
    MessageCounts {
        vote: t.vote + size(receivers_at(i, Kind::Vote, s), n) as u32,
        ack: t.ack + size(receivers_at(i, Kind::Ack, s), n) as u32,
        help: t.help + size(receivers_at(i, Kind::Help, s), n) as u32,
        helped: t.helped + size(receivers_at(i, Kind::Helped, s), n) as u32,
    }
}

// Of a bench with these parts, whatever its ballots: no report shows them. Both loops stand here, since an array that is handed on is copied.
pub fn summary_of(m: Shared, stations: [Station; LIMIT]) -> Summary
    ensures { (s : Ballots) → result ≡ summary_of (record { shared = m; ballots = s; stations = stations }) }
{
    let blank = Row {
        stage: 0,
        outcome: Outcome::None,
        position: 0,
    };
    let mut rows = [blank; LIMIT];
    // stays (no plainer): an array's `map` asks that its iterator fits in memory, and says what each call gave, which a lemma has to join to a list
    for i in 0..LIMIT {
        rows[i] = row_of(stations[i]);
    }
    let mut messages = MessageCounts {
        vote: 0,
        ack: 0,
        help: 0,
        helped: 0,
    };
    for j in 0..m.n as usize {
        let at = place_of(j);
        messages = counted(messages, m.n, j, stations[at]);
    }
    Summary {
        n: m.n,
        rows,
        messages,
    }
}
