// The check word.
ghost use Rattle.std.specs.Prelude.{◌≡◌, ◌+◌, ◌*◌, ◌%◌, ◌<◌};
ghost use Rattle.cabinet_state.specs.Words.{check_place, check_to, column_in};

use crate::writing::column;
use crate::{BALLOTS, CHECK, HEAD};
use ground::LIMIT;
use votes::VoteSet;

fn mixed(acc: u32, w: u32) -> u32
    ensures { result ≡ (acc * 31 + w) % 4294967296 }
{
    ((u64::from(acc) * 31 + u64::from(w)) % 4294967296) as u32
}

pub(crate) fn check_of(head: [u32; HEAD], ballots: [u32; BALLOTS], sets: [VoteSet; LIMIT]) -> u32
    ensures { result ≡ check_to check_place (column_in head ballots sets) }
{
    let mut acc: u32 = 1;
    for k in 0..CHECK {
        acc = mixed(acc, column(head, ballots, sets, k));
    }
    acc
}
