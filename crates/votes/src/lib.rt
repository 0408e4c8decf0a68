// Vote sets (document 01: sheets).
#![tactic(auto)]

ghost use Rattle.std.specs.Prelude.{◌≡◌};
ghost use Rattle.votes.specs.VoteSets.{empty, single, complete, unanimous};
ghost use Rattle.votes.specs.Joining.{contradicts, join, join_all, agreed_or};
ghost use Rattle.votes.specs.Contradictions.{Contradictions};

use ground::{LIMIT, full_to, has, insert, up_to_limit};

mod tallies;

pub use tallies::{one_pass, tallied_with, tallied_word, tally_all};

// A vote set: the controllers whose vote is known, and those of them known to be willing. Bit k - 1 is controller k.
#[derive(Clone, Copy, Debug, PartialEq, Eq)]
pub struct VoteSet {
    pub known: u32,
    pub willing: u32,
}

// Why vote sets have no join (document 02, U7): they contradict each other.
#[derive(Clone, Copy, Debug, PartialEq, Eq)]
pub enum JoinError {
    Contradiction,
}

// What one pass over vote sets that agree gives: their join, whether it is complete, and whether it is unanimous.
#[derive(Clone, Copy, Debug, PartialEq, Eq)]
pub struct Tally {
    pub votes: VoteSet,
    pub complete: bool,
    pub unanimous: bool,
}

// The vote set that knows nobody.
pub fn empty_set() -> VoteSet
    ensures { result ≡ empty }
{
    VoteSet {
        known: 0,
        willing: 0,
    }
}

// The vote set of one vote.
pub fn single(k: u8, willing: bool) -> VoteSet
    ensures { result ≡ single k willing }
{
    let known = insert(0, k);
    VoteSet {
        known,
        willing: if willing { known } else { 0 },
    }
}

// Is a controller that both vote sets know willing in just one of them?
pub fn contradicts(s: VoteSet, t: VoteSet) -> bool
    ensures { result ≡ contradicts s t }
{
    s.known & t.known & (s.willing ^ t.willing) != 0
}

// What either of two vote sets knows; or that they contradict each other.
pub fn join(s: VoteSet, t: VoteSet) -> Result<VoteSet, JoinError>
    ensures { result ≡ join s t }
{
    if contradicts(s, t) {
        return Err(JoinError::Contradiction);
    }
    Ok(VoteSet {
        known: s.known | t.known,
        willing: s.willing | t.willing,
    })
}

// The join, or another vote set where there is none.
pub fn agreed_or(other: VoteSet, joined: Result<VoteSet, JoinError>) -> VoteSet
    ensures { result ≡ agreed_or other joined }
{
    joined.unwrap_or(other)
}

// Is the vote of each of 1..n known? (document 01: the sheet is full)
pub fn complete(s: VoteSet, n: u8) -> bool
    ensures { result ≡ complete n s }
{
    full_to(s.known, n)
}

// Is each of 1..n known and willing? (document 01: the sheet's word is Move)
pub fn unanimous(s: VoteSet, n: u8) -> bool
    ensures { result ≡ unanimous n s }
{
    full_to(s.known, n) && full_to(s.willing, n)
}

// The join of the vote sets of those senders of 1..m that are in a set, or that two of them contradict each other. Only as many as the limit have a vote set.
pub(crate) fn join_all(m: u8, from: u32, sets: [VoteSet; LIMIT]) -> Result<VoteSet, JoinError>
    ensures { result ≡ join_all m from sets }
{
    let mut joined = empty_set();
    for k in 0..up_to_limit(m) {
        if has(from, k + 1) {
            joined = join(joined, sets[k as usize])?;
        }
    }
    Ok(joined)
}

// When two vote sets contradict each other; and that the join of any list of vote sets is there exactly when they agree pairwise, as a contract.
pub fn contradictions()
    ensures { Contradictions }
{}
