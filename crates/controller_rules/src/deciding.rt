// Whether the acknowledgements held decide at the second timeout.
ghost use Rattle.std.specs.Prelude.{◌≡◌, ◌&&◌};
ghost use Rattle.ground.specs.Mask.{has};
ghost use Rattle.votes.specs.VoteSets.{complete};
ghost use Rattle.protocol.specs.Rules.{backups_complete, second_knows, decides};

use ground::{LIMIT, has};
use model::is_backup;
use protocol::Controller;
use votes::{VoteSet, complete};

// The acknowledgement s of j is held, and knows all of 1 to n.
fn held_complete(n: u8, from: u32, j: u8, s: VoteSet) -> bool
    ensures { result ≡ (has from j && complete n s) }
{
    if has(from, j) {
        return complete(s, n);
    }
    false
}

// Those of all of 1 to f are held and full. No set of controllers has a number above the limit.
fn backups_complete(n: u8, f: u8, c: Controller) -> bool
    ensures { result ≡ backups_complete n f c }
{
    if LIMIT < f as usize {
        return false;
    }
    let from = c.acks.from;
    let sets = c.acks.sets;
    for j in 0..f {
        if !held_complete(n, from, j + 1, sets[j as usize]) {
            return false;
        }
    }
    true
}

// That of the second backup, f + 1, is held and knows all of 1 to f.
fn second_knows(f: u8, c: Controller) -> bool
    ensures { result ≡ second_knows f c }
{
    let at = f as usize;
    if LIMIT <= at {
        return false;
    }
    held_complete(f, c.acks.from, f + 1, c.acks.sets[at])
}

// May it take the word of the acknowledgements as the outcome?
pub(crate) fn decides(n: u8, f: u8, i: u8, c: Controller) -> bool
    ensures { result ≡ decides n f i c }
{
    if !backups_complete(n, f, c) {
        return false;
    }
    if !is_backup(f, i) {
        return true;
    }
    second_knows(f, c)
}
