// A controller in a cabinet as words of 32 bits: what is kept, how it is written, and which words are taken.
#![tactic(auto)]

mod checks;
mod reading;
mod writing;

ghost use Rattle.std.specs.Prelude.{◌≡◌, ◌<◌, length};
ghost use Rattle.ground.specs.Limit.{limit};
ghost use Rattle.cabinet_state.specs.Encoding.{InBytes, Encoding};

use controller_state::phase_in;
use ground::LIMIT;
use protocol::{Acceptor, Acks, Controller, HelpAnswers, Identity, Report, Sent, Tally};
pub use reading::cabinet_of;
use votes::VoteSet;
pub use writing::{leave, state_refusal, wide};

// The places of a state's words: the mark with the version, how many the head is, and what is kept of ballots; where
// who is known and who is willing on each acknowledgement begin; the check word, and how many words there are.
const MARK: u32 = 0x4C430001;

const HEAD: usize = 36;

const BALLOTS: usize = 13;

const KNOWN: usize = 49;

const WILLING: usize = 81;

const CHECK: usize = 113;

const WORDS: usize = 114;

// What a cabinet keeps of the ballots of its order: what it has promised and accepted; the promise that it gave
// last, as it was given; its own ballot that it opened last, 0 for none, with what it has counted for that one, and
// who has accepted its word, by what came in.
#[derive(Clone, Copy)]
pub struct BallotState {
    pub acceptor: Acceptor,
    pub report: Report,
    pub opened: u8,
    pub tally: Tally,
    pub accepted_by: u32,
}

// Which controller of which lock in which order, and whether the lock settles the word by ballots; the controller
// itself; what it has sent in this order.
#[derive(Clone, Copy)]
pub struct Cabinet {
    pub me: Identity,
    pub own: bool,
    pub controller: Controller,
    pub sent: Sent,
    pub ballots: BallotState,
}

// What is promised of the words: both ways round, only written forms are taken, and one changed word is noticed.
pub fn encoding()
    ensures { Encoding }
{}

// What the types say of acknowledgements, help answers and ballots.
fn sets_fit(sets: [VoteSet; LIMIT]) -> u32
    ensures { length sets ≡ limit }
{
    sets[0].known
}

fn acks_fit(a: Acks) -> u8
    ensures { (a.cnt.0 < 256) × (length a.sets ≡ limit) }
{
    let cnt = a.cnt;
    let sets = a.sets;
    sets_fit(sets);
    cnt.0
}

fn helped_fit(h: HelpAnswers) -> u8
    ensures { h.cnt_help.0 < 256 }
{
    let cnt = h.cnt_help;
    cnt.0
}

fn acceptor_fits(a: Acceptor) -> u8
    ensures { (a.highest < 256) × ((a.promised < 256) × (a.last < 256)) }
{
    a.highest
}

fn report_fits(r: Report) -> u8
    ensures { r.last < 256 }
{
    r.last
}

fn tally_fits(t: Tally) -> u8
    ensures { t.top < 256 }
{
    t.top
}

fn ballots_fit(b: BallotState) -> u8
    ensures { ((b.acceptor.highest < 256)
        × ((b.acceptor.promised < 256)
        × (b.acceptor.last < 256))) × ((b.report.last < 256) × ((b.opened < 256) × (b.tally.top < 256))) }
{
    acceptor_fits(b.acceptor);
    report_fits(b.report);
    tally_fits(b.tally);
    b.opened
}

// What the types say of any cabinet.
pub fn in_bytes(s: Cabinet)
    ensures { InBytes s }
{
    let c = s.controller;
    let now = c.condition;
    acks_fit(c.acks);
    helped_fit(c.helped);
    ballots_fit(s.ballots);
    phase_in(now);
}
