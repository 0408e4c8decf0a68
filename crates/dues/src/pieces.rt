// A sheet that comes in pieces. One that fills a piece has more than 1,000 lockages, so its answer is a refusal: 1 by the length of the last piece, 3 by any
// lockage that is not listed, else 22. So of the pieces before the last it is kept whether all their lockages are listed.
ghost use Rattle.std.specs.Prelude.{◌≡◌, ◌&&◌};
ghost use Rattle.model.specs.Refusals.{numbered};
ghost use Rattle.dues.specs.Sheet.{every, listed, lockages};
ghost use Rattle.dues.specs.Pieces.{nothing_kept, kept_with, long_dues, last_answer, InPieces};

use crate::Kept;
use crate::sheet::{all_listed, dues};
use model::Refusal;
use tariff::Shares;

// The bytes of a piece, a whole number of lockages and more than 1,000; the last piece has fewer.
pub const PIECE: usize = 65536;

// Before the first piece.
pub fn nothing_kept() -> Kept
    ensures { result ≡ nothing_kept }
{
    Kept {
        some: false,
        listed: true,
    }
}

// After one piece more.
pub fn kept_with(kept: Kept, s: &[u8]) -> Kept
    ensures { result ≡ kept_with kept s.now }
{
    let listed = listed_too(kept.listed, s);
    Kept { some: true, listed }
}

// Are all before a piece listed, and all on it?
fn listed_too(all: bool, s: &[u8]) -> bool
    ensures { result ≡ (all && every listed (lockages s.now)) }
{
    all && all_listed(s)
}

// The answer to a sheet of more than 1,000 lockages.
#[tactic(auto, unfolding(crate::specs::Pieces::long_dues))]
fn long_dues(all: bool, s: &[u8]) -> Result<Shares, Refusal>
    ensures { numbered result ≡ long_dues all s.now }
{
    if s.len() % 4 != 0 {
        return Err(Refusal::Length);
    }
    if listed_too(all, s) {
        return Err(Refusal::Lockages);
    }
    Err(Refusal::Listed)
}

// The answer to a sheet in pieces, from what is kept and the last one.
#[tactic(auto, unfolding(crate::specs::Pieces::last_answer))]
pub(crate) fn last_answer(kept: Kept, s: &[u8]) -> Result<Shares, Refusal>
    ensures { numbered result ≡ last_answer kept s.now }
{
    if kept.some {
        return long_dues(kept.listed, s);
    }
    dues(s)
}

// What is kept and the last piece give the answer to the whole sheet, however many pieces it comes in.
pub fn in_pieces()
    ensures { InPieces }
{}
