// A sheet of lockages: the questions put to it, and both owners' totals.
ghost use Rattle.std.specs.Prelude.{◌≡◌, ◌&&◌, ◌+◌, ◌*◌, ◌≤◌, length};
ghost use Rattle.model.specs.Refusals.{numbered};
ghost use Rattle.tariff.specs.Charges.{shared};
ghost use Rattle.dues.specs.Sheet.{charge_of, lockage_at, lockages, count, every, listed, in_range, totals, DuesOf};

use crate::Lockage;
use model::Refusal;
use records::{flag_of, is_flag, is_outcome, number2, outcome_of};
use tariff::{Shares, shares_of};

// The bytes of a lockage, and how many lockages a sheet may have.
const LENGTH: usize = 4;

const MOST: usize = 1000;

// The lockage whose bytes begin at a place.
fn lockage_at(s: &[u8], at: usize) -> Lockage
    requires { at + 4 ≤ length s.now }
    ensures { result ≡ lockage_at s.now at }
{
    Lockage {
        length: number2(s, at),
        outcome: s[at + 2],
        returned: s[at + 3],
    }
}

// Are its outcome and its return listed values?
fn listed(l: Lockage) -> bool
    ensures { result ≡ listed l }
{
    is_outcome(l.outcome) && is_flag(l.returned)
}

// Is its length in range?
fn in_range(l: Lockage) -> bool
    ensures { result ≡ in_range l }
{
    1 <= l.length && l.length <= 2500
}

// Which questions every lockage of a sheet passes: 3, and the lengths' part of 22.
#[derive(Clone, Copy)]
struct Checks {
    listed: bool,
    in_range: bool,
}

// One pass over the sheet for both.
fn check_all(s: &[u8]) -> Checks
    ensures listed_value { result.listed ≡ every listed (lockages s.now) }
    ensures in_range_value { result.in_range ≡ every in_range (lockages s.now) }
{
    let mut listed_all = true;
    let mut in_range_all = true;
    for k in 0..s.len() / LENGTH {
        let l = lockage_at(s, k * LENGTH);
        listed_all &= listed(l);
        in_range_all &= in_range(l);
    }
    Checks {
        listed: listed_all,
        in_range: in_range_all,
    }
}

// Is every lockage of a sheet listed?
pub(crate) fn all_listed(s: &[u8]) -> bool
    ensures { result ≡ every listed (lockages s.now) }
{
    check_all(s).listed
}

// What each owner gets of a lockage.
fn lockage_shares(l: Lockage) -> Shares
    ensures { result ≡ shared (charge_of l) }
{
    shares_of(l.length, outcome_of(l.outcome), flag_of(l.returned))
}

// Both owners' totals, charge by charge.
fn totals(s: &[u8]) -> Shares
    requires { count s.now ≤ 1000 }
    ensures { result ≡ totals (lockages s.now) }
{
    let mut upper: u32 = 0;
    let mut lower: u32 = 0;
    for done in 0..s.len() / LENGTH {
        let shares = lockage_shares(lockage_at(s, done * LENGTH));
        upper += shares.upper;
        lower += shares.lower;
    }
    Shares { upper, lower }
}

// What each owner gets of the lockages on a sheet, or the number with which the whole sheet is refused.
pub fn dues(s: &[u8]) -> Result<Shares, Refusal>
    ensures { DuesOf s.now (numbered result) }
{
    if s.len() % LENGTH != 0 {
        return Err(Refusal::Length);
    }
    let checks = check_all(s);
    if !checks.listed {
        return Err(Refusal::Listed);
    }
    if MOST < s.len() / LENGTH {
        return Err(Refusal::Lockages);
    }
    if !checks.in_range {
        return Err(Refusal::Lockages);
    }
    Ok(totals(s))
}
