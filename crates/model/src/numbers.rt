// Kinds and outcomes and their numbers, both ways; and tests of an outcome.
ghost use Rattle.std.specs.Prelude.{◌≡◌};
ghost use Rattle.model.specs.Numbers.{kind_number, ballot_kind_number, outcome_number, StandsFor, word_of, is_none, says_move, is_stay};

use crate::{BallotKind, Kind, Outcome, Refusal};

impl From<Kind> for u8 {
    ghost from_gives = { λ kind x. x ≡ kind_number kind };

    fn from(kind: Kind) -> u8 {
        kind as u8
    }
}

impl TryFrom<u8> for Kind {
    type Error = Refusal;

    ghost try_from_gives = { StandsFor kind_number };

    fn try_from(x: u8) -> Result<Self, Refusal> {
        match x {
            1 => Ok(Kind::Vote),
            2 => Ok(Kind::Ack),
            3 => Ok(Kind::Help),
            4 => Ok(Kind::Helped),
            _ => Err(Refusal::Listed),
        }
    }
}

impl From<BallotKind> for u8 {
    ghost from_gives = { λ kind x. x ≡ ballot_kind_number kind };

    fn from(kind: BallotKind) -> u8 {
        kind as u8
    }
}

impl TryFrom<u8> for BallotKind {
    type Error = Refusal;

    ghost try_from_gives = { StandsFor ballot_kind_number };

    fn try_from(x: u8) -> Result<Self, Refusal> {
        match x {
            5 => Ok(BallotKind::Prepare),
            6 => Ok(BallotKind::Promise),
            7 => Ok(BallotKind::Accept),
            8 => Ok(BallotKind::Accepted),
            _ => Err(Refusal::Listed),
        }
    }
}

impl From<Outcome> for u8 {
    ghost from_gives = { λ outcome x. x ≡ outcome_number outcome };

    fn from(outcome: Outcome) -> u8 {
        outcome as u8
    }
}

impl TryFrom<u8> for Outcome {
    type Error = Refusal;

    ghost try_from_gives = { StandsFor outcome_number };

    fn try_from(x: u8) -> Result<Self, Refusal> {
        match x {
            0 => Ok(Outcome::None),
            1 => Ok(Outcome::Stay),
            2 => Ok(Outcome::Move),
            _ => Err(Refusal::Listed),
        }
    }
}

// The word that is Move, or Stay.
pub fn word_of(is_move: bool) -> Outcome
    ensures { result ≡ word_of is_move }
{
    if is_move {
        Outcome::Move
    } else {
        Outcome::Stay
    }
}

pub fn is_none(outcome: Outcome) -> bool
    ensures { result ≡ is_none outcome }
{
    outcome == Outcome::None
}

pub fn is_stay(outcome: Outcome) -> bool
    ensures { result ≡ is_stay outcome }
{
    outcome == Outcome::Stay
}

pub fn is_move(outcome: Outcome) -> bool
    ensures { result ≡ says_move outcome }
{
    outcome == Outcome::Move
}
