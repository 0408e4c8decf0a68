// The words of a cabinet, and whether words are those of one.
ghost use Rattle.std.specs.Prelude.{◌≡◌, ◌<◌, length};
ghost use Rattle.model.specs.Questions.{number};
ghost use Rattle.model.specs.Refusals.{reply_by, reply_of};
ghost use Rattle.cabinet_state.specs.Tables.{tabulate};
ghost use Rattle.cabinet_state.specs.Words.{check_place, state_words, tag_of, head_from, head_of, ballots_from};
ghost use Rattle.cabinet_state.specs.Words.{ballots_of, column_in, check_of, column_of, with_check, words_of};
ghost use Rattle.cabinet_state.specs.States.{same_words, written_form, state_refusal, leave_number, left_words};

use crate::checks::check_of;
use crate::reading::{cabinet_of, word};
use crate::{BALLOTS, BallotState, CHECK, Cabinet, HEAD, KNOWN, MARK, WILLING, WORDS};
use controller_state::{outcome_in, phase_in};
use ground::LIMIT;
use model::{Numbered, Refusal, ask};
use protocol::Condition;
use votes::VoteSet;

fn tag_of(k: Condition) -> u8
    ensures { result ≡ tag_of k }
{
    match k {
        Condition::Running(_) => 0,
        Condition::Stopped => 1,
        Condition::Standby(_) => 2,
    }
}

// A byte as a word.
pub fn wide(x: u8) -> u32
    ensures { (result ≡ x) × (result < 256) }
{
    u32::from(x)
}

// The head, with its small numbers widened.
// stays (proof): each number comes widened, so that the array is one equation and each widening one of its own (Heads.antt); so too `ballots_from`.
fn head_from(
    n: u32,
    f: u32,
    id: u32,
    own: u32,
    tag: u32,
    phase: u32,
    outcome: u32,
    cnt: u32,
    cnt_help: u32,
    waiting: u32,
    proposal: u32,
    s: Cabinet,
) -> [u32; HEAD]
    ensures { result ≡ head_from n f id own tag phase outcome cnt cnt_help waiting proposal s }
{
    let c = s.controller;
    [
        MARK,
        n,
        f,
        id,
        s.me.order,
        own,
        tag,
        phase,
        outcome,
        cnt,
        cnt_help,
        waiting,
        proposal,
        c.votes.known,
        c.votes.willing,
        c.acks.from,
        c.helped.votes.known,
        c.helped.votes.willing,
        c.helped.from,
        c.help.votes.known,
        c.help.votes.willing,
        c.help.callers,
        c.gate.target,
        c.gate.position,
        s.sent.vote.to,
        s.sent.vote.votes.known,
        s.sent.vote.votes.willing,
        s.sent.ack.to,
        s.sent.ack.votes.known,
        s.sent.ack.votes.willing,
        s.sent.help.to,
        s.sent.help.votes.known,
        s.sent.help.votes.willing,
        s.sent.helped.to,
        s.sent.helped.votes.known,
        s.sent.helped.votes.willing,
    ]
}

fn head_of(s: Cabinet) -> [u32; HEAD]
    ensures { result ≡ head_of s }
{
    let c = s.controller;
    let now = c.condition;
    let proposal = c.proposal;
    let cnt = c.acks.cnt;
    let cnt_help = c.helped.cnt_help;
    head_from(
        wide(s.me.n),
        wide(s.me.f),
        wide(s.me.id),
        wide(u8::from(s.own)),
        wide(tag_of(now)),
        wide(phase_in(now)),
        wide(u8::from(outcome_in(now))),
        wide(cnt.0),
        wide(cnt_help.0),
        wide(u8::from(c.help.waiting)),
        wide(u8::from(proposal)),
        s,
    )
}

fn ballots_from(
    highest: u32,
    promised: u32,
    last: u32,
    taken: u32,
    given: u32,
    rlast: u32,
    rword: u32,
    opened: u32,
    from: u32,
    top: u32,
    top_word: u32,
    put: u32,
    by: u32,
) -> [u32; BALLOTS]
    ensures { result ≡ ballots_from highest promised last taken given rlast rword opened from top top_word put by }
{
    [
        highest, promised, last, taken, given, rlast, rword, opened, from, top, top_word, put, by,
    ]
}

fn ballots_of(b: BallotState) -> [u32; BALLOTS]
    ensures { result ≡ ballots_of b }
{
    let acceptor = b.acceptor;
    let taken = acceptor.word;
    let report = b.report;
    let rword = report.word;
    let tally = b.tally;
    let top_word = tally.top_word;
    let put = tally.word;
    ballots_from(
        wide(acceptor.highest),
        wide(acceptor.promised),
        wide(acceptor.last),
        wide(u8::from(taken)),
        wide(u8::from(report.given)),
        wide(report.last),
        wide(u8::from(rword)),
        wide(b.opened),
        tally.from,
        wide(tally.top),
        wide(u8::from(top_word)),
        wide(u8::from(put)),
        b.accepted_by,
    )
}

// The word at a place before the check word.
pub(crate) fn column(
    head: [u32; HEAD],
    ballots: [u32; BALLOTS],
    sets: [VoteSet; LIMIT],
    k: usize,
) -> u32
    requires { k < check_place }
    ensures { result ≡ column_in head ballots sets k }
{
    if k < HEAD {
        return head[k];
    }
    if k < KNOWN {
        return ballots[k - HEAD];
    }
    if k < WILLING {
        return sets[k - KNOWN].known;
    }
    sets[k - WILLING].willing
}

// The word at any place.
fn with_check(
    check: u32,
    head: [u32; HEAD],
    ballots: [u32; BALLOTS],
    sets: [VoteSet; LIMIT],
    k: usize,
) -> u32
    ensures { result ≡ with_check check (column_in head ballots sets) k }
{
    if k < CHECK {
        return column(head, ballots, sets, k);
    }
    check
}

fn fill(
    check: u32,
    head: [u32; HEAD],
    ballots: [u32; BALLOTS],
    sets: [VoteSet; LIMIT],
    out: &mut [u32],
)
    requires { length out.old ≡ state_words }
    ensures { out.new ≡ tabulate state_words (with_check check (column_in head ballots sets)) }
{
    for k in 0..WORDS {
        out[k] = with_check(check, head, ballots, sets, k);
    }
}

fn write(s: Cabinet, out: &mut [u32])
    requires { length out.old ≡ state_words }
    ensures { out.new ≡ words_of s }
{
    let c = s.controller;
    let sets = c.acks.sets;
    let head = head_of(s);
    let ballots = ballots_of(s.ballots);
    fill(check_of(head, ballots, sets), head, ballots, sets, out);
}

fn same_words(
    check: u32,
    head: [u32; HEAD],
    ballots: [u32; BALLOTS],
    sets: [VoteSet; LIMIT],
    s: &[u32],
) -> bool
    ensures { result ≡ same_words check (column_in head ballots sets) s.now }
{
    for k in 0..WORDS {
        if with_check(check, head, ballots, sets, k) != word(s, k) {
            return false;
        }
    }
    true
}

// Would the cabinet that the words stand for be written as they are?
fn written_as(s: &[u32], cabinet: Cabinet) -> bool
    ensures { result ≡ same_words (check_of cabinet) (column_of cabinet) s.now }
{
    let c = cabinet.controller;
    let sets = c.acks.sets;
    let head = head_of(cabinet);
    let ballots = ballots_of(cabinet.ballots);
    same_words(check_of(head, ballots, sets), head, ballots, sets, s)
}

fn written_form(s: &[u32]) -> bool
    ensures { result ≡ written_form s.now }
{
    written_as(s, cabinet_of(s))
}

// What is wrong with words that should be a cabinet's.
#[tactic(auto, unfolding(crate::specs::States::state_refusal))]
pub fn state_refusal(s: &[u32]) -> Result<(), Refusal>
    ensures { number (reply_of result) ≡ state_refusal s.now }
{
    ask(s.len() == WORDS, Refusal::Length)?;
    ask(word(s, 0) == MARK, Refusal::Mark)?;
    ask(written_form(s), Refusal::Listed)
}

// Leaves a cabinet in the words, unless what was asked is refused or they are too few or too many; then they are untouched.
pub fn leave<Q: Numbered>(state: &mut [u32], asked: Result<(), Q>, s: Cabinet) -> Result<(), Q>
    ensures { (number (reply_by Q.number result) ≡ leave_number state.old (number (reply_by Q.number asked)))
        × (state.new ≡ left_words state.old (reply_by Q.number asked) s) }
{
    if state.len() != WORDS {
        return Err(Q::of(Refusal::Length));
    }
    asked?;
    write(s, state);
    Ok(())
}
