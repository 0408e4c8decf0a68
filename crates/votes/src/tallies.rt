// Joining vote sets in one pass (document 02, U3): the join with its two answers, whether it is full and its word; or that there is none.
ghost use Rattle.std.specs.Prelude.{◌≡◌};
ghost use Rattle.votes.specs.Joining.{join_all};
ghost use Rattle.votes.specs.Tallies.{tally_of, tallied_of, tallied_word, tallied_with};
ghost use Rattle.votes.specs.OnePass.{OnePass};

use crate::{JoinError, Tally, VoteSet, agreed_or, join, join_all};
use ground::{LIMIT, full_to};

// A vote set with both answers, each set of it tested once.
fn tally_of(n: u8, s: VoteSet) -> Tally
    ensures { result ≡ tally_of n s }
{
    let complete = full_to(s.known, n);
    let unanimous = complete && full_to(s.willing, n);
    Tally {
        votes: s,
        complete,
        unanimous,
    }
}

// The vote sets of those senders of 1..m that are in a set, gone over once: their join, is it complete for n, is it unanimous for n; or that two of them
// contradict each other.
pub fn tally_all(n: u8, m: u8, from: u32, sets: [VoteSet; LIMIT]) -> Result<Tally, JoinError>
    ensures { result ≡ tallied_of n (join_all m from sets) }
{
    let votes = join_all(m, from, sets)?;
    Ok(tally_of(n, votes))
}

// Is the word of what was gone over Move? Of vote sets that contradict each other it is not.
pub fn tallied_word(t: Result<Tally, JoinError>) -> bool
    ensures { result ≡ tallied_word t }
{
    match t {
        Ok(tally) => tally.unanimous,
        Err(_) => false,
    }
}

// The join of what was gone over with one vote set more, or that vote set alone where there is no join.
pub fn tallied_with(s: VoteSet, t: Result<Tally, JoinError>) -> VoteSet
    ensures { result ≡ tallied_with s t }
{
    match t {
        Ok(tally) => agreed_or(s, join(tally.votes, s)),
        Err(_) => s,
    }
}

// One pass over any list of vote sets, for any n, gives the two answers of their join, as a contract.
pub fn one_pass()
    ensures { OnePass }
{}
