// What is asked of a telegram of a ballot, read or to be written.
ghost use Rattle.std.specs.Prelude.{◌≡◌};
ghost use Rattle.model.specs.Questions.{first_no};
ghost use Rattle.model.specs.Refusals.{reply_of};
ghost use Rattle.message_record.specs.BallotMessages.{tells_nothing, tells_word, reports_last, tells_for_kind, ballot_suits, about_ballot};

use crate::questions::head_question;
use model::{BallotKind, BallotMessage, Outcome, Refusal, is_none};

// Question 9: "Ask has the middle two 0".
fn tells_nothing(last: u8, word: Outcome) -> bool
    ensures { result ≡ tells_nothing last word }
{
    last == 0 && is_none(word)
}

// "put and taken have last 0 and a word"
fn tells_word(last: u8, word: Outcome) -> bool
    ensures { result ≡ tells_word last word }
{
    last == 0 && !is_none(word)
}

// "a promise has both or neither, last not above its ballot"
fn reports_last(ballot: u8, last: u8, word: Outcome) -> bool
    ensures { result ≡ reports_last ballot last word }
{
    if last == 0 {
        return is_none(word);
    }
    !is_none(word) && last <= ballot
}

fn tells_for_kind(kind: BallotKind, ballot: u8, last: u8, word: Outcome) -> bool
    ensures { result ≡ tells_for_kind kind ballot last word }
{
    match kind {
        BallotKind::Prepare => tells_nothing(last, word),
        BallotKind::Promise => reports_last(ballot, last, word),
        BallotKind::Accept => tells_word(last, word),
        BallotKind::Accepted => tells_word(last, word),
    }
}

// Question 9: is the vote set empty, and does the rest suit the kind?
pub fn ballot_suits(b: BallotMessage) -> bool
    ensures { result ≡ ballot_suits b }
{
    let set = b.votes;
    if set.known != 0 {
        return false;
    }
    if set.willing != 0 {
        return false;
    }
    let kind = b.kind;
    let word = b.word;
    tells_for_kind(kind, b.ballot, b.last, word)
}

// Questions 4, 7, 8, 9 and 28.
pub(crate) fn ballot_question(b: BallotMessage) -> Result<(), Refusal>
    ensures { reply_of result ≡ first_no (about_ballot b) }
{
    head_question(b.n, b.f, b.from, b.to, b.order)?;
    if !ballot_suits(b) {
        return Err(Refusal::VoteSet);
    }
    if !model::is_ballot(u32::from(b.ballot)) {
        return Err(Refusal::Ballot);
    }
    Ok(())
}
