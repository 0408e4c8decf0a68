// The calls that look at a cabinet and write into another buffer of the caller.
ghost use Rattle.std.specs.Prelude.{◌≡◌};
ghost use Rattle.cabinet.specs.Calls.{call_number, call_buffer, card_reply, card_after, card_number};
ghost use Rattle.cabinet.specs.Calls.{card_bytes, nth_telegram, sent_number, sent_bytes, sent_length};
ghost use Rattle.cabinet.specs.Calls.{length_number, telegram_number, telegram_bytes, shown_number};
ghost use Rattle.cabinet.specs.Calls.{shown_words};

use cabinet_state::{Cabinet, cabinet_of, state_refusal};
use cabinet_turns::{nth_telegram, shown};
use checkpoint_record::write_checkpoint;
use controller::save;
use message_bytes::{telegram_length, write_telegram};
use model::{Checkpoint, Telegram, answer_number};

// A card into its buffer, or 15.
fn write_saved(saved: Option<Checkpoint>, out: &mut [u8]) -> u8
    ensures { (result ≡ card_reply out.old saved)
        × (out.new ≡ card_after out.old saved) }
{
    match saved {
        None => 15,
        Some(p) => answer_number(write_checkpoint(out, p)),
    }
}

fn write_card(s: Cabinet, out: &mut [u8]) -> u8
    ensures { (result ≡ card_number out.old s) × (out.new ≡ card_bytes out.old s) }
{
    if s.me.order < 1 {
        return 14;
    }
    write_saved(save(s.me, s.controller), out)
}

// Its card, fourteen bytes.
#[unsafe(no_mangle)]
pub extern "C" fn cabinet_save(state: &[u32], card: &mut [u8]) -> u8
    ensures { (result ≡ call_number state.now (card_number card.old))
        × (card.new ≡ call_buffer state.now card.old (card_bytes card.old)) }
{
    let refusal = answer_number(state_refusal(state));
    if refusal != 0 {
        return refusal;
    }
    write_card(cabinet_of(state), card)
}

fn write_sent(t: Option<Telegram>, out: &mut [u8]) -> u8
    ensures { (result ≡ sent_number out.old t) × (out.new ≡ sent_bytes out.old t) }
{
    match t {
        None => 17,
        Some(t) => answer_number(write_telegram(out, t)),
    }
}

// The telegram that has k before it, of all that it has sent in its order, into a buffer of its length.
#[unsafe(no_mangle)]
pub extern "C" fn cabinet_telegram(state: &[u32], k: u8, out: &mut [u8]) -> u8
    ensures { (result ≡ call_number state.now (telegram_number k out.old))
        × (out.new ≡ call_buffer state.now out.old
        (telegram_bytes k out.old)) }
{
    let refusal = answer_number(state_refusal(state));
    if refusal != 0 {
        return refusal;
    }
    write_sent(nth_telegram(cabinet_of(state), k), out)
}

fn length_sent(t: Option<Telegram>) -> u8
    ensures { result ≡ sent_length t }
{
    match t {
        None => 0,
        Some(t) => telegram_length(t) as u8,
    }
}

// How long that telegram is; 0 where there are not so many, or the state is refused.
#[unsafe(no_mangle)]
pub extern "C" fn cabinet_telegram_length(state: &[u32], k: u8) -> u8
    ensures { result ≡ length_number k state.now }
{
    if answer_number(state_refusal(state)) != 0 {
        return 0;
    }
    length_sent(nth_telegram(cabinet_of(state), k))
}

fn write_shown(s: Cabinet, out: &mut [u32]) -> u8
    ensures { (result ≡ shown_number out.old s) × (out.new ≡ shown_words out.old s) }
{
    if out.len() != 7 {
        return 1;
    }
    out.copy_from_slice(&shown(s));
    0
}

// What a display needs, seven words.
#[unsafe(no_mangle)]
pub extern "C" fn cabinet_show(state: &[u32], out: &mut [u32]) -> u8
    ensures { (result ≡ call_number state.now (shown_number out.old))
        × (out.new ≡ call_buffer state.now out.old (shown_words out.old)) }
{
    let refusal = answer_number(state_refusal(state));
    if refusal != 0 {
        return refusal;
    }
    write_shown(cabinet_of(state), out)
}
