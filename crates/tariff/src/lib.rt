// What a lockage pays by the boat's length, and how the two owners share it.
#![tactic(auto)]

mod charge;
mod lookup;

pub use charge::shares_of;
pub use lookup::bands_in_order;

// A band of the tariff: the highest length of its boats, in cm, and their charge, in pence.
#[derive(Clone, Copy)]
pub(crate) struct Band {
    pub limit: u32,
    pub charge: u32,
}

// Pence for the owner of the upper pound, and for that of the lower.
#[derive(Clone, Copy)]
pub struct Shares {
    pub upper: u32,
    pub lower: u32,
}
