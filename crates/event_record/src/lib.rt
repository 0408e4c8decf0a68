// Event records: their reader and writer. A record stands for an act: an event, or a step back.
#![tactic(auto)]

mod event;
mod kinds;

ghost use Rattle.event_record.specs.ByteForByte.{ByteForByte};

pub use event::{asked_in_sequence, fields_of, read_event, record_bytes, round_trips, write_event};

// What stands in an event record after its mark.
#[derive(Clone, Copy)]
pub struct Fields {
    pub kind: u8,
    pub a: u8,
    pub b: u8,
    pub c: u8,
    pub value: u32,
}

impl Fields {
    pub const UNUSED: Fields = Fields {
        kind: 0,
        a: 0,
        b: 0,
        c: 0,
        value: 0,
    };
}

// Events of document 02, U14, and the step back of U11, byte for byte, and bytes with one fault each.
pub fn byte_for_byte()
    ensures { ByteForByte }
{}
