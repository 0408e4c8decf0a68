// What one lockage pays, and each owner's share of it.
ghost use Rattle.std.specs.Prelude.{◌≡◌, ◌≤◌};
ghost use Rattle.tariff.specs.Shares.{SmallestAtLeast, half_up, upper_share};
ghost use Rattle.tariff.specs.Charges.{charge, reduced, shared};

use crate::Shares;
use crate::lookup::full_charge;
use model::Outcome;

// Half, half pennies up.
fn half_up(pence: u32) -> u32
    requires { pence ≤ 1587 }
    ensures { (result ≡ half_up pence) × SmallestAtLeast 1 2 pence result }
{
    (pence + 1) / 2
}

// Three fifths, rounded up to the penny.
fn upper_share(pence: u32) -> u32
    requires { pence ≤ 1587 }
    ensures { (result ≡ upper_share pence) × SmallestAtLeast 3 5 pence result }
{
    (3 * pence + 4) / 5
}

// A return on the same day pays half.
fn reduced(returned: bool, pence: u32) -> u32
    requires { pence ≤ 1587 }
    ensures { result ≡ reduced returned pence }
{
    if returned {
        return half_up(pence);
    }
    pence
}

// What a lockage pays: only an order that ended Move pays.
fn charge(length: u32, outcome: Outcome, returned: bool) -> u32
    ensures { result ≡ charge length outcome returned }
{
    match outcome {
        Outcome::None => 0,
        Outcome::Stay => 0,
        Outcome::Move => reduced(returned, full_charge(length)),
    }
}

// What each owner gets of a lockage: the boat's length in cm, the order's outcome, is it a return on the same day? Any length is taken:
// 0 pays as the first band does, and above 2,500 nothing is paid. No sheet is accepted with either (crate `dues`, question 22).
pub fn shares_of(length: u32, outcome: Outcome, returned: bool) -> Shares
    ensures { result ≡ shared (charge length outcome returned) }
{
    let pence = charge(length, outcome, returned);
    let upper = upper_share(pence);
    Shares {
        upper,
        lower: pence - upper,
    }
}
