// The cabinet that words stand for.
ghost use Rattle.std.specs.Prelude.{◌≡◌, ◌<◌};
ghost use Rattle.cabinet_state.specs.Words.{word, small, set_in, outgoing_in, condition_from, identity_in};
ghost use Rattle.cabinet_state.specs.Words.{condition_in, sets_in, acks_in, helped_in, help_in, controller_in, sent_in};
ghost use Rattle.cabinet_state.specs.Words.{acceptor_in, report_in, tally_in, ballots_in, cabinet_of};

use crate::{BallotState, Cabinet, KNOWN, WILLING};
use controller_state::in_phase;
use ground::LIMIT;
use protocol::{
    Acceptor, Acks, Cnt, CntHelp, Condition, Controller, Gate, HelpAnswers, HelpState, Identity,
    Outgoing, Report, Sent, Tally,
};
use records::{flag_of, low_byte, outcome_of};
use votes::{VoteSet, empty_set};

// The word at a place; past the end there is none, and it counts as 0.
pub(crate) fn word(s: &[u32], k: usize) -> u32
    ensures { result ≡ word s.now k }
{
    if s.len() <= k {
        return 0;
    }
    s[k]
}

fn small(s: &[u32], k: usize) -> u8
    ensures { result ≡ small s.now k }
{
    low_byte(word(s, k))
}

fn set_in(s: &[u32], k: usize) -> VoteSet
    requires { k < 100 }
    ensures { result ≡ set_in s.now k }
{
    VoteSet {
        known: word(s, k),
        willing: word(s, k + 1),
    }
}

fn outgoing_in(s: &[u32], k: usize) -> Outgoing
    requires { k < 90 }
    ensures { result ≡ outgoing_in s.now k }
{
    Outgoing {
        to: word(s, k),
        votes: set_in(s, k + 1),
    }
}

fn condition_from(tag: u8, phase: u8, o: u8) -> Condition
    ensures { result ≡ condition_from tag phase o }
{
    let outcome = outcome_of(o);
    if tag == 0 {
        return in_phase(phase, outcome);
    }
    if tag == 1 {
        return Condition::Stopped;
    }
    Condition::Standby(outcome)
}

fn condition_in(s: &[u32]) -> Condition
    ensures { result ≡ condition_in s.now }
{
    condition_from(small(s, 6), small(s, 7), small(s, 8))
}

fn identity_in(s: &[u32]) -> Identity
    ensures { result ≡ identity_in s.now }
{
    Identity {
        n: small(s, 1),
        f: small(s, 2),
        id: small(s, 3),
        order: word(s, 4),
    }
}

fn sets_in(s: &[u32]) -> [VoteSet; LIMIT]
    ensures { result ≡ sets_in s.now }
{
    let mut sets = [empty_set(); LIMIT];
    for j in 0..LIMIT {
        sets[j] = VoteSet {
            known: word(s, KNOWN + j),
            willing: word(s, WILLING + j),
        };
    }
    sets
}

fn acks_in(s: &[u32]) -> Acks
    ensures { result ≡ acks_in s.now }
{
    let sets = sets_in(s);
    Acks {
        sets,
        from: word(s, 15),
        cnt: Cnt(small(s, 9)),
    }
}

fn helped_in(s: &[u32]) -> HelpAnswers
    ensures { result ≡ helped_in s.now }
{
    HelpAnswers {
        votes: set_in(s, 16),
        from: word(s, 18),
        cnt_help: CntHelp(small(s, 10)),
    }
}

fn help_in(s: &[u32]) -> HelpState
    ensures { result ≡ help_in s.now }
{
    HelpState {
        waiting: flag_of(small(s, 11)),
        votes: set_in(s, 19),
        callers: word(s, 21),
    }
}

fn controller_in(s: &[u32]) -> Controller
    ensures { result ≡ controller_in s.now }
{
    let acks = acks_in(s);
    let helped = helped_in(s);
    let help = help_in(s);
    Controller {
        condition: condition_in(s),
        votes: set_in(s, 13),
        acks,
        helped,
        help,
        proposal: outcome_of(small(s, 12)),
        gate: Gate {
            target: word(s, 22),
            position: word(s, 23),
        },
    }
}

fn sent_in(s: &[u32]) -> Sent
    ensures { result ≡ sent_in s.now }
{
    Sent {
        vote: outgoing_in(s, 24),
        ack: outgoing_in(s, 27),
        help: outgoing_in(s, 30),
        helped: outgoing_in(s, 33),
    }
}

fn acceptor_in(s: &[u32]) -> Acceptor
    ensures { result ≡ acceptor_in s.now }
{
    Acceptor {
        highest: small(s, 36),
        promised: small(s, 37),
        last: small(s, 38),
        word: outcome_of(small(s, 39)),
    }
}

fn report_in(s: &[u32]) -> Report
    ensures { result ≡ report_in s.now }
{
    Report {
        given: flag_of(small(s, 40)),
        last: small(s, 41),
        word: outcome_of(small(s, 42)),
    }
}

fn tally_in(s: &[u32]) -> Tally
    ensures { result ≡ tally_in s.now }
{
    Tally {
        from: word(s, 44),
        top: small(s, 45),
        top_word: outcome_of(small(s, 46)),
        word: outcome_of(small(s, 47)),
    }
}

fn ballots_in(s: &[u32]) -> BallotState
    ensures { result ≡ ballots_in s.now }
{
    let acceptor = acceptor_in(s);
    let report = report_in(s);
    let tally = tally_in(s);
    BallotState {
        acceptor,
        report,
        opened: small(s, 43),
        tally,
        accepted_by: word(s, 48),
    }
}

// All of it.
pub fn cabinet_of(s: &[u32]) -> Cabinet
    ensures { result ≡ cabinet_of s.now }
{
    let me = identity_in(s);
    let own = flag_of(small(s, 5));
    let controller = controller_in(s);
    let sent = sent_in(s);
    let ballots = ballots_in(s);
    Cabinet {
        me,
        own,
        controller,
        sent,
        ballots,
    }
}
