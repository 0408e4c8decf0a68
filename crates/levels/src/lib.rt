// A gate's vote from the levels that two gauges show. Document 02, U1.
#![tactic(auto)]

mod answer;
mod heights;

pub use answer::{judge, vote};

// What a gauge gives: a low and a high level in mm, each as 32-bit two's complement.
#[derive(Clone, Copy)]
pub struct Range {
    pub low: u32,
    pub high: u32,
}

// What two ranges say of a gate's willingness.
#[derive(Clone, Copy, Debug, PartialEq, Eq)]
pub enum Willingness {
    Willing,
    CertainlyUnwilling,
    Unsure,
}
