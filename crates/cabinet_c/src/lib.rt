// The cabinet library for C (include/cabinet.h; bin/archive cabinet): each export is its function of the crate cabinet, with its clauses.
#![tactic(auto)]

ghost use Rattle.std.specs.Prelude.{◌≡◌};
ghost use Rattle.cabinet.specs.Acts.{begin_answer, begin_words, answer_to, words_after};
ghost use Rattle.cabinet.specs.Acts.{Ordering, Voting, Receiving, TimingOut, Deciding, Stopping, Waking, Opening};
ghost use Rattle.cabinet.specs.Calls.{call_number, call_buffer, card_number, card_bytes};
ghost use Rattle.cabinet.specs.Calls.{length_number, telegram_number, telegram_bytes, shown_number, shown_words};

// A controller begins: `own` is 1 at a lock without arbiter, else 0; `position` is where its gate stands, in two's
// complement of millimetres.
#[unsafe(no_mangle)]
pub extern "C" fn cabinet_begin(
    state: &mut [u32],
    n: u8,
    f: u8,
    id: u8,
    own: u8,
    position: u32,
) -> u8
    ensures { (result ≡ begin_answer state.old n f id own position)
        × (state.new ≡ begin_words state.old n f id own position) }
{
    cabinet::cabinet_begin(state, n, f, id, own, position)
}

// A new order.
#[unsafe(no_mangle)]
pub extern "C" fn cabinet_order(state: &mut [u32], order: u32) -> u8
    ensures { (result ≡ answer_to (Ordering order) state.old)
        × (state.new ≡ words_after (Ordering order) state.old) }
{
    cabinet::cabinet_order(state, order)
}

// Its vote, 1 willing or 0, and its gate's target.
#[unsafe(no_mangle)]
pub extern "C" fn cabinet_vote(state: &mut [u32], willing: u8, target: u32) -> u8
    ensures { (result ≡ answer_to (Voting willing target) state.old)
        × (state.new ≡ words_after (Voting willing target) state.old) }
{
    cabinet::cabinet_vote(state, willing, target)
}

// A wait is over.
#[unsafe(no_mangle)]
pub extern "C" fn cabinet_timeout(state: &mut [u32]) -> u8
    ensures { (result ≡ answer_to TimingOut state.old)
        × (state.new ≡ words_after TimingOut state.old) }
{
    cabinet::cabinet_timeout(state)
}

// The arbiter's word, or the one that a ballot has settled: 1 Move or 0 Stay.
#[unsafe(no_mangle)]
pub extern "C" fn cabinet_decide(state: &mut [u32], to_move: u8) -> u8
    ensures { (result ≡ answer_to (Deciding to_move) state.old)
        × (state.new ≡ words_after (Deciding to_move) state.old) }
{
    cabinet::cabinet_decide(state, to_move)
}

// It ends everything but the position of its gate.
#[unsafe(no_mangle)]
pub extern "C" fn cabinet_stop(state: &mut [u32]) -> u8
    ensures { (result ≡ answer_to Stopping state.old)
        × (state.new ≡ words_after Stopping state.old) }
{
    cabinet::cabinet_stop(state)
}

// A telegram's bytes arrive, of any form.
#[unsafe(no_mangle)]
pub extern "C" fn cabinet_receive(state: &mut [u32], telegram: &[u8]) -> u8
    ensures { (result ≡ answer_to (Receiving telegram.now) state.old)
        × (state.new ≡ words_after (Receiving telegram.now) state.old) }
{
    cabinet::cabinet_receive(state, telegram)
}

// It comes back from a card: stopped and restored in one, so that it stands by.
#[unsafe(no_mangle)]
pub extern "C" fn cabinet_wake(state: &mut [u32], card: &[u8]) -> u8
    ensures { (result ≡ answer_to (Waking card.now) state.old)
        × (state.new ≡ words_after (Waking card.now) state.old) }
{
    cabinet::cabinet_wake(state, card)
}

// It opens its ballot b.
#[unsafe(no_mangle)]
pub extern "C" fn cabinet_open(state: &mut [u32], b: u8) -> u8
    ensures { (result ≡ answer_to (Opening b) state.old)
        × (state.new ≡ words_after (Opening b) state.old) }
{
    cabinet::cabinet_open(state, b)
}

// Its card, fourteen bytes.
#[unsafe(no_mangle)]
pub extern "C" fn cabinet_save(state: &[u32], card: &mut [u8]) -> u8
    ensures { (result ≡ call_number state.now (card_number card.old))
        × (card.new ≡ call_buffer state.now card.old (card_bytes card.old)) }
{
    cabinet::cabinet_save(state, card)
}

// The telegram that has k before it, of all that it has sent in its order, into a buffer of its length.
#[unsafe(no_mangle)]
pub extern "C" fn cabinet_telegram(state: &[u32], k: u8, out: &mut [u8]) -> u8
    ensures { (result ≡ call_number state.now (telegram_number k out.old))
        × (out.new ≡ call_buffer state.now out.old
        (telegram_bytes k out.old)) }
{
    cabinet::cabinet_telegram(state, k, out)
}

// How long that telegram is; 0 where there are not so many, or the state is refused.
#[unsafe(no_mangle)]
pub extern "C" fn cabinet_telegram_length(state: &[u32], k: u8) -> u8
    ensures { result ≡ length_number k state.now }
{
    cabinet::cabinet_telegram_length(state, k)
}

// What a display needs, seven words.
#[unsafe(no_mangle)]
pub extern "C" fn cabinet_show(state: &[u32], out: &mut [u32]) -> u8
    ensures { (result ≡ call_number state.now (shown_number out.old))
        × (out.new ≡ call_buffer state.now out.old (shown_words out.old)) }
{
    cabinet::cabinet_show(state, out)
}
