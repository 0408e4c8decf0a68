// What a controller holds by sender: acknowledgements and help answers.
ghost use Rattle.std.specs.Prelude.{◌≡◌, cond, ◌||◌, ◌+◌, ◌-◌, eqb, leb};
ghost use Rattle.ground.specs.Lists.{nth, put};
ghost use Rattle.ground.specs.Mask.{insert};
ghost use Rattle.votes.specs.VoteSets.{empty};
ghost use Rattle.model.specs.declared.Outcome.TheVariants.{None};
ghost use Rattle.protocol.specs.Controllers.{phase_in, bump, keep_ack, drop_if, drop_to, drop_contradicting, keep_helped};

use crate::conditions::phase_in;
use ground::{LIMIT, has, insert, nth, put, remove};
use model::Outcome;
use protocol::{Acks, Cnt, CntHelp, Condition, Controller, HelpAnswers};
use votes::{VoteSet, agreed_or, contradicts, empty_set, join};

// One more, as far as a byte counts.
// stays (promise): the definition of this name, by which the counts go; `lower` and `set_of` likewise are named by callers and theorems above.
pub fn bump(k: u8) -> u8
    ensures { result ≡ bump k }
{
    k.saturating_add(1)
}

// One fewer, down to 0.
pub fn lower(k: u8) -> u8
    ensures { result ≡ k - 1 }
{
    k.saturating_sub(1)
}

// An acknowledgement is kept and counted.
pub fn keep_ack(c: Controller, j: u8, s: VoteSet) -> Controller
    ensures { result ≡ keep_ack c j s }
{
    let held = c.acks.sets;
    let acks = Acks {
        sets: put(held, j as usize, s),
        from: insert(c.acks.from, j),
        cnt: Cnt(bump(c.acks.cnt.0)),
    };
    let mut next = c;
    next.acks = acks;
    next
}

// One of two vote sets, or a mask and a count with one more or as they are: an acknowledgement that is kept or not, part by part.
pub fn set_if(takes: bool, s: VoteSet, other: VoteSet) -> VoteSet
    ensures { result ≡ cond takes s other }
{
    if takes {
        return s;
    }
    other
}

pub fn from_if(takes: bool, from: u32, j: u8) -> u32
    ensures { result ≡ cond takes (insert from j) from }
{
    if takes {
        return insert(from, j);
    }
    from
}

pub fn cnt_if(takes: bool, k: u8) -> u8
    ensures { result ≡ cond takes (bump k) k }
{
    if takes {
        return bump(k);
    }
    k
}

// The vote set of sender j in a list. Only as many senders as the limit have a place.
pub fn set_of(sets: [VoteSet; LIMIT], j: u8) -> VoteSet
    ensures { result ≡ nth empty sets j }
{
    nth(sets, j as usize, empty_set())
}

// The acknowledgements without that of j, if it contradicts a vote set.
fn drop_if(s: VoteSet, j: u8, a: Acks) -> Acks
    ensures { result ≡ drop_if s j a }
{
    if !has(a.from, j) {
        return a;
    }
    let sets = a.sets;
    if !contradicts(set_of(sets, j), s) {
        return a;
    }
    Acks {
        sets,
        from: remove(a.from, j),
        cnt: Cnt(a.cnt.0.saturating_sub(1)),
    }
}

// The acknowledgements without all those of 1 to m that contradict a vote set.
fn drop_to(m: u8, s: VoteSet, a: Acks) -> Acks
    ensures { result ≡ drop_to m s a }
{
    let mut acks = a;
    for j in 0..m {
        acks = drop_if(s, j + 1, acks);
    }
    acks
}

// The acknowledgements held that contradict the own vote count as not received.
pub fn drop_contradicting(n: u8, s: VoteSet, c: Controller) -> Controller
    ensures { result ≡ drop_contradicting n s c }
{
    let held = c.acks;
    let acks = drop_to(n, s, held);
    let mut next = c;
    next.acks = acks;
    next
}

// A help answer is joined and counted.
pub fn keep_helped(c: Controller, j: u8, s: VoteSet) -> Controller
    ensures { result ≡ keep_helped c j s }
{
    let held = c.helped.votes;
    let helped = HelpAnswers {
        votes: agreed_or(held, join(held, s)),
        from: insert(c.helped.from, j),
        cnt_help: CntHelp(bump(c.helped.cnt_help.0)),
    };
    let mut next = c;
    next.helped = helped;
    next
}

// Acknowledgements are kept until a word is put or an outcome is there.
pub fn keeps_acks(condition: Condition, waiting: bool) -> bool
    ensures { result ≡ (leb (phase_in condition) 2 || waiting) }
{
    phase_in(condition) <= 2 || waiting
}

// The two counts, which are added here alone, come to n - f or more.
pub fn counts_suffice(n: u8, f: u8, cnt: Cnt, cnt_help: CntHelp) -> bool
    ensures { result ≡ leb n (cnt.0 + cnt_help.0 + f) }
{
    let counted = (cnt.0 as u32) + (cnt_help.0 as u32) + (f as u32);
    (n as u32) <= counted
}

// The outcome of a checkpoint of this order; of another order's, none.
pub fn outcome_kept(saved: u32, outcome: Outcome, order: u32) -> Outcome
    ensures { result ≡ cond (eqb saved order) outcome None }
{
    if saved == order {
        return outcome;
    }
    Outcome::None
}
