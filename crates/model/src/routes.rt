// Who sends what to whom.
ghost use Rattle.std.specs.Prelude.{◌≡◌, suc};
ghost use Rattle.ground.specs.Mask.{collect, up_to};
ghost use Rattle.model.specs.Routes.{vote_route, ack_route, help_route, route, recipients, others_of};

use crate::Kind;
use crate::ranges::{is_backup, is_second_backup};

fn vote_route(f: u8, from: u8, to: u8) -> bool
    ensures { result ≡ vote_route f from to }
{
    if from == to {
        return false;
    }
    if is_backup(f, to) {
        return true;
    }
    is_backup(f, from) && is_second_backup(f, to)
}

fn ack_route(f: u8, from: u8, to: u8) -> bool
    ensures { result ≡ ack_route f from to }
{
    if from == to {
        return false;
    }
    if is_backup(f, from) {
        return true;
    }
    is_second_backup(f, from) && is_backup(f, to)
}

fn help_route(f: u8, from: u8, to: u8) -> bool
    ensures { result ≡ help_route f from to }
{
    if from == to {
        return false;
    }
    f < from && f < to
}

// May a message of this kind go from the one to the other?
pub fn route(f: u8, kind: Kind, from: u8, to: u8) -> bool
    ensures { result ≡ route f kind from to }
{
    match kind {
        Kind::Vote => vote_route(f, from, to),
        Kind::Ack => ack_route(f, from, to),
        Kind::Help => help_route(f, from, to),
        Kind::Helped => help_route(f, from, to),
    }
}

// Those of the set that are of 1..n, without the sender.
fn others(n: u8, set: u32, from: u8) -> u32
    ensures { result ≡ collect n (others_of set from) }
{
    ground::remove(set & ground::up_to(n), from)
}

// The backups and the second backup, 1 to f + 1. That number need not fit a u8, and has no bit then.
fn up_to_second_backup(f: u8) -> u32
    ensures { result ≡ up_to (suc f) }
{
    if 255 <= f {
        return ground::up_to(f);
    }
    ground::up_to(f + 1)
}

fn vote_recipients(n: u8, f: u8, from: u8) -> u32
    ensures { result ≡ collect n (vote_route f from) }
{
    if is_backup(f, from) {
        return others(n, up_to_second_backup(f), from);
    }
    others(n, ground::up_to(f), from)
}

fn ack_recipients(n: u8, f: u8, from: u8) -> u32
    ensures { result ≡ collect n (ack_route f from) }
{
    if is_backup(f, from) {
        return others(n, ground::up_to(n), from);
    }
    if is_second_backup(f, from) {
        return others(n, ground::up_to(f), from);
    }
    0
}

// Those above f are where, within 1..n, the sets of 1..n and of 1..f differ.
fn help_recipients(n: u8, f: u8, from: u8) -> u32
    ensures { result ≡ collect n (help_route f from) }
{
    if f < from {
        return others(n, ground::up_to(n) ^ ground::up_to(f), from);
    }
    0
}

// All to whom a kind may travel from a controller.
pub fn recipients(n: u8, f: u8, kind: Kind, from: u8) -> u32
    ensures { result ≡ recipients n f kind from }
{
    match kind {
        Kind::Vote => vote_recipients(n, f, from),
        Kind::Ack => ack_recipients(n, f, from),
        Kind::Help => help_recipients(n, f, from),
        Kind::Helped => help_recipients(n, f, from),
    }
}
