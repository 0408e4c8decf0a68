// What the records of document 01 share as bytes: one description of a record and its laws (in specs/), length and mark, big-endian numbers, and listed values.
#![tactic(auto)]

mod codes;
mod frame;
mod number;

pub use codes::{flag_of, is_flag, is_outcome, kind_of, outcome_of};
pub use frame::{frame_question, write_record};
pub use number::{byte_after, low_byte, number2, number4};
