// When a word is chosen: more than half have accepted it in one ballot.
ghost use Rattle.std.specs.Prelude.{◌≡◌, ◌&&◌, List};
ghost use Rattle.protocol.specs.declared.Acceptor.{Acceptor};
ghost use Rattle.protocol.specs.Ballots.{is_word_of, majority, is_chosen};

use crate::numbers::is_majority;
use model::{Outcome, is_move, is_stay};
use protocol::{BALLOTS, BallotRow};

fn is_word(o: Outcome, to_move: bool) -> bool
    ensures { result ≡ is_word_of o to_move }
{
    if to_move {
        return is_move(o);
    }
    is_stay(o)
}

// Is it chosen in a ballot with this word, which these have accepted?
pub fn chosen_in(word: Outcome, accepted_by: u32, n: u8, to_move: bool) -> bool
    ensures { result ≡ (is_word_of word to_move && majority n accepted_by) }
{
    if is_word(word, to_move) {
        return is_majority(n, accepted_by);
    }
    false
}

// Is it chosen in one of the ballots? What the controllers have promised does not count.
pub fn is_chosen(n: u8, rows: [BallotRow; BALLOTS], to_move: bool) -> bool
    ensures { (acceptors : List Acceptor) → result ≡ is_chosen n (record { acceptors = acceptors; rows = rows }) to_move }
{
    for row in &rows {
        let tally = row.tally;
        if chosen_in(tally.word, row.accepted_by, n, to_move) {
            return true;
        }
    }
    false
}
