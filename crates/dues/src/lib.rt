// A sheet of lockages: the questions put to it, what the two owners get of it, and what is printed of that.
#![tactic(auto)]

mod output;
mod pieces;
mod sheet;

pub use output::{LONGEST_OUTPUT, render};
pub use pieces::{PIECE, in_pieces, kept_with, nothing_kept};
pub use sheet::dues;

// A lockage as it stands on a sheet: the boat's length in cm, and the bytes for the outcome and for a return.
#[derive(Clone, Copy)]
pub(crate) struct Lockage {
    pub length: u32,
    pub outcome: u8,
    pub returned: u8,
}

// What is kept of the pieces of a sheet, before the last: were there any, and are all their lockages listed?
// stays (promise): four values, which `kept_with` and `render` take and `always_fits` speaks of; an Option has no place for one of them.
#[derive(Clone, Copy)]
pub struct Kept {
    pub some: bool,
    pub listed: bool,
}
