// The word of what is held, and the count that ends waiting.
ghost use Rattle.std.specs.Prelude.{◌≡◌, Ok};
ghost use Rattle.votes.specs.Tallies.{tallied_of};
ghost use Rattle.controller_rules.specs.Conclusions.{counted_word};
ghost use Rattle.protocol.specs.Rules.{verdict, ack_join, sufficient, answers_join, propose_if_sufficient};

use controller_state::{counts_suffice, proposing};
use model::{Outcome, word_of};
use protocol::{Answer, Cnt, Controller, HelpAnswers};
use votes::{JoinError, Tally, VoteSet, tallied_word, tally_all, unanimous};

// The word of a vote set.
fn verdict(n: u8, s: VoteSet) -> Outcome
    ensures { result ≡ verdict n (Ok s) }
{
    word_of(unanimous(s, n))
}

// The acknowledgements held, gone over once: their join, whether it is full and whether its word is Move; or that two of them contradict each other.
pub(crate) fn ack_tally(n: u8, c: Controller) -> Result<Tally, JoinError>
    ensures { result ≡ tallied_of n (ack_join n c) }
{
    tally_all(n, n, c.acks.from, c.acks.sets)
}

// It waits, and the two counts add up to n - f or more.
fn sufficient(n: u8, f: u8, c: Controller) -> bool
    ensures { result ≡ sufficient n f c }
{
    if c.help.waiting {
        return counts_suffice(n, f, c.acks.cnt, c.helped.cnt_help);
    }
    false
}

// The word that is put: of the acknowledgements if it holds any, else of the help answers.
fn answers_verdict(n: u8, c: Controller) -> Outcome
    ensures { result ≡ verdict n (answers_join n c) }
{
    if 0 < c.acks.cnt.0 {
        return word_of(tallied_word(ack_tally(n, c)));
    }
    verdict(n, c.helped.votes)
}

// An answer after which the count may be complete: then a word is put.
pub fn propose_if_sufficient(n: u8, f: u8, a: Answer) -> Answer
    ensures { result ≡ propose_if_sufficient n f a }
{
    let c = a.controller;
    if sufficient(n, f, c) {
        return proposing(a, answers_verdict(n, c));
    }
    a
}

// The word of the help answers, if the two counts suffice; else none.
pub(crate) fn counted_word(n: u8, f: u8, cnt: Cnt, helped: HelpAnswers) -> Outcome
    ensures { result ≡ counted_word n f cnt helped }
{
    if counts_suffice(n, f, cnt, helped.cnt_help) {
        return verdict(n, helped.votes);
    }
    Outcome::None
}
