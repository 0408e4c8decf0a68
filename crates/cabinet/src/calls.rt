// The calls that change a cabinet.
ghost use Rattle.std.specs.Prelude.{◌≡◌, ℕ, Result};
ghost use Rattle.model.specs.Questions.{number};
ghost use Rattle.model.specs.Refusals.{reply_of};
ghost use Rattle.model.specs.declared.Refusal.{Refusal};
ghost use Rattle.cabinet_state.specs.declared.Cabinet.{Cabinet};
ghost use Rattle.cabinet_state.specs.Words.{cabinet_of};
ghost use Rattle.cabinet.specs.Calls.{call_number, call_words};
ghost use Rattle.cabinet.specs.Acts.{begin_answer, begin_words, answer_to, words_after};
ghost use Rattle.cabinet.specs.Acts.{Ordering, Voting, Receiving, TimingOut, Deciding, Stopping, Waking, Opening};

use cabinet_state::{Cabinet, cabinet_of, leave, state_refusal};
use cabinet_turns::{
    begin_question, begun, decide_question, decided, halted, open_question, opened, order_question,
    ordered, present_question, receive_question, received, timed_out, timeout_question,
    vote_question, voted, wake_question, woken,
};
use checkpoint_record::read_checkpoint;
use message_bytes::read_telegram;
use model::{Refusal, answer_number};
use protocol::Condition;

// A controller begins: `own` is 1 at a lock without arbiter, else 0; `position` is where its gate stands, in two's
// complement of millimetres.
#[unsafe(no_mangle)]
pub extern "C" fn cabinet_begin(
    state: &mut [u32],
    n: u8,
    f: u8,
    id: u8,
    own: u8,
    position: u32,
) -> u8
    ensures { (result ≡ begin_answer state.old n f id own position)
        × (state.new ≡ begin_words state.old n f id own position) }
{
    answer_number(leave(
        state,
        begin_question(n, f, id, own, position),
        begun(n, f, id, own, position),
    ))
}

// A call on the cabinet that the words hold: it is refused for its state, or by the first of its questions that is answered "no", and changes nothing; or it
// leaves the cabinet after its turn.
fn play<Q: FnOnce(Cabinet) -> Result<(), Refusal>, T: FnOnce(Cabinet) -> Cabinet>(
    state: &mut [u32],
    question: Q,
    turn: T,
) -> Result<(), Refusal>
    requires asks { Q.IsAlwaysCallable question }
    requires turns { T.IsAlwaysCallable turn }
    ensures { (q : Cabinet → ℕ) (g : Cabinet → Cabinet)
        → ((r : Result Unit Refusal) → Q.post question (cabinet_of state.old) r → number (reply_of r) ≡ q (cabinet_of state.old))
        → ((next : Cabinet) → T.post turn (cabinet_of state.old) next → next ≡ g (cabinet_of state.old))
        → (number (reply_of result) ≡ call_number state.old q) × (state.new ≡ call_words state.old q g) }
{
    state_refusal(state)?;
    let s = cabinet_of(state);
    leave(state, question(s), turn(s))
}

fn condition_of(s: Cabinet) -> Condition
    ensures { result ≡ s.controller.condition }
{
    s.controller.condition
}

// A new order.
#[unsafe(no_mangle)]
pub extern "C" fn cabinet_order(state: &mut [u32], order: u32) -> u8
    ensures { (result ≡ answer_to (Ordering order) state.old)
        × (state.new ≡ words_after (Ordering order) state.old) }
{
    answer_number(play(
        state,
        |s| order_question(order, s.me.order, condition_of(s)),
        |s| ordered(order, s),
    ))
}

// Its vote, 1 willing or 0, and its gate's target.
#[unsafe(no_mangle)]
pub extern "C" fn cabinet_vote(state: &mut [u32], willing: u8, target: u32) -> u8
    ensures { (result ≡ answer_to (Voting willing target) state.old)
        × (state.new ≡ words_after (Voting willing target) state.old) }
{
    answer_number(play(
        state,
        |s| vote_question(willing, target, s.me.order, condition_of(s)),
        |s| voted(willing, target, s),
    ))
}

// A wait is over.
#[unsafe(no_mangle)]
pub extern "C" fn cabinet_timeout(state: &mut [u32]) -> u8
    ensures { (result ≡ answer_to TimingOut state.old)
        × (state.new ≡ words_after TimingOut state.old) }
{
    answer_number(play(
        state,
        |s| timeout_question(s.me.order, condition_of(s)),
        |s| timed_out(s),
    ))
}

// The arbiter's word, or the one that a ballot has settled: 1 Move or 0 Stay.
#[unsafe(no_mangle)]
pub extern "C" fn cabinet_decide(state: &mut [u32], to_move: u8) -> u8
    ensures { (result ≡ answer_to (Deciding to_move) state.old)
        × (state.new ≡ words_after (Deciding to_move) state.old) }
{
    answer_number(play(
        state,
        |s| decide_question(to_move, s.me.order, condition_of(s)),
        |s| decided(to_move, s),
    ))
}

// It ends everything but the position of its gate.
#[unsafe(no_mangle)]
pub extern "C" fn cabinet_stop(state: &mut [u32]) -> u8
    ensures { (result ≡ answer_to Stopping state.old)
        × (state.new ≡ words_after Stopping state.old) }
{
    answer_number(play(
        state,
        |s| present_question(s.me.order, condition_of(s)),
        |s| halted(s),
    ))
}

// A telegram's bytes arrive, of any form.
#[unsafe(no_mangle)]
pub extern "C" fn cabinet_receive(state: &mut [u32], telegram: &[u8]) -> u8
    ensures { (result ≡ answer_to (Receiving telegram.now) state.old)
        × (state.new ≡ words_after (Receiving telegram.now) state.old) }
{
    let read = read_telegram(telegram);
    answer_number(play(state, |s| receive_question(read, s), |s| received(read, s)))
}

// It comes back from a card: stopped and restored in one, so that it stands by.
#[unsafe(no_mangle)]
pub extern "C" fn cabinet_wake(state: &mut [u32], card: &[u8]) -> u8
    ensures { (result ≡ answer_to (Waking card.now) state.old)
        × (state.new ≡ words_after (Waking card.now) state.old) }
{
    let read = read_checkpoint(card);
    answer_number(play(state, |s| wake_question(read, s.me), |s| woken(read, s)))
}

// It opens its ballot b.
#[unsafe(no_mangle)]
pub extern "C" fn cabinet_open(state: &mut [u32], b: u8) -> u8
    ensures { (result ≡ answer_to (Opening b) state.old)
        × (state.new ≡ words_after (Opening b) state.old) }
{
    answer_number(play(state, |s| open_question(b, s), |s| opened(b, s)))
}
