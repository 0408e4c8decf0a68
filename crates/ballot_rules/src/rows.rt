// One ballot on the bench: what it becomes by an answer, what was sent in it, and whether it may be opened.
ghost use Rattle.std.specs.Prelude.{◌≡◌, cond, not, ◌&&◌, eqb};
ghost use Rattle.ground.specs.Lists.{put};
ghost use Rattle.ground.specs.Mask.{has};
ghost use Rattle.model.specs.Numbers.{is_none};
ghost use Rattle.protocol.specs.Ballots.{owner};
ghost use Rattle.protocol.specs.BallotSteps.{row_after, was_sent_in, may_open_ballot};

use crate::numbers::owner;
use controller_state::from_if;
use ground::{LIMIT, has, put};
use model::{BallotKind, is_ballot, is_none};
use protocol::{Acceptor, BallotAnswer, BallotRow};

// What the promises report, with that of controller i if it gives one. Only as many as the limit have a place.
fn reports(given: bool, lasts: [u8; LIMIT], i: u8, last: u8) -> [u8; LIMIT]
    ensures { result ≡ cond given (put lasts i last) lasts }
{
    if given {
        return put(lasts, i as usize, last);
    }
    lasts
}

// The ballot after controller i's answer.
pub fn row_after(r: BallotRow, i: u8, x: BallotAnswer) -> BallotRow
    ensures { result ≡ row_after r i x }
{
    let given = x.promise.given;
    let last = x.promise.last;
    let tally = x.tally;
    let lasts = r.lasts;
    BallotRow {
        tally,
        promised_by: from_if(given, r.promised_by, i),
        lasts: reports(given, lasts, i, last),
        accepted_by: from_if(x.accepts, r.accepted_by, i),
    }
}

// The ballot is k's, and controller i is in the set.
pub fn is_owner_in(n: u8, b: u8, k: u8, set: u32, i: u8) -> bool
    ensures { result ≡ (eqb (owner n b) k && has set i) }
{
    if owner(n, b) == k {
        return has(set, i);
    }
    false
}

// A word was put in the ballot, and it is i's.
fn was_put(n: u8, b: u8, i: u8, r: BallotRow) -> bool
    ensures { result ≡ (eqb (owner n b) i && not (is_none r.tally.word)) }
{
    if owner(n, b) == i {
        let tally = r.tally;
        let word = tally.word;
        return !is_none(word);
    }
    false
}

// Was a message of this kind and ballot sent from i to j?
pub fn was_sent_in(kind: BallotKind, n: u8, b: u8, i: u8, j: u8, r: BallotRow) -> bool
    ensures { result ≡ was_sent_in kind n b i j r }
{
    match kind {
        BallotKind::Prepare => is_owner_in(n, b, i, r.promised_by, i),
        BallotKind::Promise => is_owner_in(n, b, j, r.promised_by, i),
        BallotKind::Accept => was_put(n, b, i, r),
        BallotKind::Accepted => is_owner_in(n, b, j, r.accepted_by, i),
    }
}

// May controller i open ballot b?
pub fn may_open_ballot(n: u8, i: u8, b: u32, a: Acceptor, r: BallotRow) -> bool
    ensures { result ≡ may_open_ballot n i b a r }
{
    if !is_ballot(b) {
        return false;
    }
    if owner(n, b as u8) != i {
        return false;
    }
    if has(r.promised_by, i) {
        return false;
    }
    a.highest as u32 <= b
}
