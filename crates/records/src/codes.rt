// What stands for a kind, an outcome and a flag, of any byte: the definitions say of unlisted ones too what they would stand for.
ghost use Rattle.std.specs.Prelude.{◌≡◌};
ghost use Rattle.records.specs.Codes.{kind_of, is_outcome, outcome_of, is_flag, flag_of};

use model::{Kind, Outcome};

// stays (promise): what `cabinet_state::cabinet_of` and the flags of `cabinet_turns` are said by, of any byte; `try_from` refuses the unlisted ones.
pub fn kind_of(x: u8) -> Kind
    ensures { result ≡ kind_of x }
{
    Kind::try_from(x).unwrap_or(Kind::Helped)
}

pub fn is_outcome(x: u8) -> bool
    ensures { result ≡ is_outcome x }
{
    x <= 2
}

pub fn outcome_of(x: u8) -> Outcome
    ensures { result ≡ outcome_of x }
{
    Outcome::try_from(x).unwrap_or(Outcome::Move)
}

pub fn is_flag(x: u8) -> bool
    ensures { result ≡ is_flag x }
{
    x <= 1
}

pub fn flag_of(x: u8) -> bool
    ensures { result ≡ flag_of x }
{
    x == 1
}
