// Drawn events: which one a draw chooses, and its fields from the draws after it.
ghost use Rattle.std.specs.Prelude.{◌≡◌, ◌<◌};
ghost use Rattle.generator.specs.Drawing.{controller_of, message_kind_of, is_move_of, delivery, timeout, decision, interruption, interrupted, chosen, drawn_event};

use crate::Drawn;
use model::{Event, Kind};
use records::{flag_of, kind_of};
use xorshift::draw;

fn controller_of(n: u8, s: u32) -> u8
    requires { 0 < n }
    ensures { result ≡ controller_of n s }
{
    1 + (s % n as u32) as u8
}

fn message_kind_of(s: u32) -> Kind
    ensures { result ≡ message_kind_of s }
{
    kind_of(1 + (s % 4) as u8)
}

fn is_move_of(s: u32) -> bool
    ensures { result ≡ is_move_of s }
{
    flag_of((s % 2) as u8)
}

// The fields come in the order a, b, c, each from a draw; s is the last draw before them.
fn delivery(n: u8, s: u32) -> Drawn
    requires { 0 < n }
    ensures { result ≡ delivery n s }
{
    let a = draw(s);
    let b = draw(a);
    let c = draw(b);
    let event = Event::Deliver {
        from: controller_of(n, a),
        to: controller_of(n, b),
        kind: message_kind_of(c),
    };
    Drawn { event, state: c }
}

fn timeout(n: u8, s: u32) -> Drawn
    requires { 0 < n }
    ensures { result ≡ timeout n s }
{
    let a = draw(s);
    let event = Event::Timeout {
        id: controller_of(n, a),
    };
    Drawn { event, state: a }
}

fn decision(n: u8, s: u32) -> Drawn
    requires { 0 < n }
    ensures { result ≡ decision n s }
{
    let a = draw(s);
    let b = draw(a);
    let event = Event::Decide {
        id: controller_of(n, a),
        to_move: is_move_of(b),
    };
    Drawn { event, state: b }
}

// Stop, save or restore.
fn interruption(s: u32, id: u8) -> Event
    ensures { result ≡ interruption s id }
{
    if s % 3 == 0 {
        return Event::Stop { id };
    }
    if s % 3 == 1 {
        return Event::Save { id };
    }
    Event::Restore { id }
}

fn interrupted(n: u8, s: u32) -> Drawn
    requires { 0 < n }
    ensures { result ≡ interrupted n s }
{
    let a = draw(s);
    let event = interruption(s, controller_of(n, a));
    Drawn { event, state: a }
}

// What the draw s chooses.
fn chosen(n: u8, s: u32) -> Drawn
    requires { 0 < n }
    ensures { result ≡ chosen n s }
{
    if s % 10 < 6 {
        return delivery(n, s);
    }
    if s % 10 < 8 {
        return timeout(n, s);
    }
    if s % 10 < 9 {
        return decision(n, s);
    }
    interrupted(n, draw(s))
}

// The event that is drawn after a state.
pub(crate) fn drawn_event(n: u8, state: u32) -> Drawn
    requires { 0 < n }
    ensures { result ≡ drawn_event n state }
{
    chosen(n, draw(state))
}
