// Telegrams, of document 01 and of document 02, U12 and U14, as records: in which forms they stand as bytes, what is asked of them, and what is promised.
// `message_bytes` reads and writes them.
#![tactic(auto)]

mod ballots;
mod questions;

ghost use Rattle.std.specs.Prelude.{◌≡◌, ◌∷◌};
ghost use Rattle.records.specs.Promises.{Promises, AskedInSequence};
ghost use Rattle.message_record.specs.Telegrams.{asked_of, telegrams};
ghost use Rattle.message_record.specs.Forms.{Forms};
ghost use Rattle.message_record.specs.ByteForByte.{ByteForByte};
ghost use Rattle.message_record.specs.Refusals.{Refusals};

pub use ballots::ballot_suits;
pub use questions::{suits, telegram_question};
use votes::VoteSet;

// How wide the two vote sets stand on the record: two bytes each in the short forms, for locks up to Telegram::SHORT_LIMIT controllers, and four in the long ones.
#[derive(Clone, Copy)]
pub enum MessageWidth {
    Short,
    Long,
}

// What stands on the record after its head: the two vote sets, or beside them the four bytes more of a ballot.
#[derive(Clone, Copy)]
pub enum MessageBody {
    Votes,
    Ballot,
}

// The four forms.
#[derive(Clone, Copy)]
pub struct TelegramForm {
    pub width: MessageWidth,
    pub body: MessageBody,
}

// The four bytes more; 0 where there are none.
#[derive(Clone, Copy)]
pub struct BallotFields {
    pub ballot: u8,
    pub last: u8,
    pub word: u8,
    pub spare: u8,
}

// What stands on a record after its mark.
#[derive(Clone, Copy)]
pub struct Fields {
    pub kind: u8,
    pub n: u8,
    pub f: u8,
    pub from: u8,
    pub to: u8,
    pub spare: u8,
    pub order: u32,
    pub votes: VoteSet,
    pub more: BallotFields,
}

// What is promised of these records: reading answers as the questions do, both round trips, no bytes of two forms, and a refused write's buffer.
pub fn round_trips()
    ensures { Promises telegrams }
{}

// Document 02, U12 and U14, of telegrams, sentence by sentence; old cabinets with it.
pub fn four_forms()
    ensures { Forms }
{}

// Telegrams of each form, byte for byte.
pub fn byte_for_byte()
    ensures { ByteForByte }
{}

// Bytes of each form with one fault each, and what reading answers.
pub fn refusals_answered()
    ensures { Refusals }
{}

// In which sequence the questions are put: to a record that is read; to a buffer and a telegram to be written into it.
pub fn asked_in_sequence()
    ensures { AskedInSequence telegrams (λ k. 1 ∷ 2 ∷ 3 ∷ asked_of k.body) (λ k. 1 ∷ asked_of k.body) }
{}
