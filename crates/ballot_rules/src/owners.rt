// What the owner of a ballot counts and puts: it opens the ballot, and promises arrive.
ghost use Rattle.std.specs.Prelude.{◌≡◌};
ghost use Rattle.protocol.specs.BallotRules.{counts, counting, word_for, with_word, putting, put_word, put_if_majority, promise_arrives, giving, open_ballot};

use crate::acceptors::{accept_arrives, promising, reporting, unanswered};
use crate::numbers::is_majority;
use ground::{has, insert};
use model::{Outcome, is_none};
use protocol::{Acceptor, BallotAnswer, Report, Tally};

// Is a promise of j counted? One of each sender is, until a word is put.
fn counts(t: Tally, j: u8) -> bool
    ensures { result ≡ counts t j }
{
    let word = t.word;
    if is_none(word) {
        return !has(t.from, j);
    }
    false
}

// The tally with the promise of j, which reports a ballot and its word.
fn counting(t: Tally, j: u8, last: u8, w: Outcome) -> Tally
    ensures { result ≡ counting t j last w }
{
    let from = insert(t.from, j);
    if t.top < last {
        return Tally {
            from,
            top: last,
            top_word: w,
            ..t
        };
    }
    Tally { from, ..t }
}

// The word of the highest ballot reported, else the owner's own.
fn word_for(t: Tally, own: Outcome) -> Outcome
    ensures { result ≡ word_for t own }
{
    if t.top == 0 {
        return own;
    }
    t.top_word
}

fn with_word(t: Tally, w: Outcome) -> Tally
    ensures { result ≡ with_word t w }
{
    Tally { word: w, ..t }
}

fn putting(x: BallotAnswer) -> BallotAnswer
    ensures { result ≡ putting x }
{
    let mut next = x;
    next.proposes = true;
    next
}

// The word is put to all others, and the owner accepts its own by the same rule.
fn put_word(b: u8, w: Outcome, a: Acceptor, t: Tally) -> BallotAnswer
    ensures { result ≡ put_word b w a t }
{
    let put = with_word(t, w);
    let x = accept_arrives(b, w, a, put);
    putting(x)
}

// "With promises from more than n/2 controllers": any two such sets share one, which reports what was accepted before.
fn put_if_majority(n: u8, b: u8, own: Outcome, a: Acceptor, t: Tally) -> BallotAnswer
    ensures { result ≡ put_if_majority n b own a t }
{
    if is_majority(n, t.from) {
        let w = word_for(t, own);
        return put_word(b, w, a, t);
    }
    unanswered(a, t)
}

// A promise of ballot b arrives at its owner, from j; it reports a ballot and its word. The owner has put its own word to the order.
pub fn promise_arrives(
    n: u8,
    b: u8,
    j: u8,
    last: u8,
    w: Outcome,
    own: Outcome,
    a: Acceptor,
    t: Tally,
) -> BallotAnswer
    ensures { result ≡ promise_arrives n b j last w own a t }
{
    if counts(t, j) {
        let counted = counting(t, j, last, w);
        return put_if_majority(n, b, own, a, counted);
    }
    unanswered(a, t)
}

fn giving(promise: Report, x: BallotAnswer) -> BallotAnswer
    ensures { result ≡ giving promise x }
{
    let mut next = x;
    next.promise = promise;
    next
}

// Controller i opens its ballot b: it promises to itself, which is counted as any other promise.
pub fn open_ballot(n: u8, b: u8, i: u8, own: Outcome, a: Acceptor, t: Tally) -> BallotAnswer
    ensures { result ≡ open_ballot n b i own a t }
{
    let promise = reporting(a);
    let word = a.word;
    let last = a.last;
    let promised = promising(b, a);
    let x = promise_arrives(n, b, i, last, word, own, promised, t);
    giving(promise, x)
}
