// The records of document 01 as values: telegrams, cards, events, and what they are made of.
#![tactic(auto)]

mod numbers;
mod ranges;
mod refusals;
mod routes;

pub use numbers::{is_move, is_none, is_stay, word_of};
pub use ranges::{
    different_controllers, is_backup, is_ballot, is_controller, position_in_range, sizes_in_range,
};
pub use refusals::{Numbered, answer_number, ask};
pub use routes::{recipients, route};
use votes::VoteSet;

// The kinds of telegram, by their numbers on a record: vote, acknowledgement, help call, help answer.
#[derive(Clone, Copy, Debug, PartialEq, Eq)]
pub enum Kind {
    Vote = 1,
    Ack = 2,
    Help = 3,
    Helped = 4,
}

// An outcome, a word put, or the arbiter's word, by their numbers on a record; None where there is none.
#[derive(Clone, Copy, Debug, PartialEq, Eq)]
pub enum Outcome {
    None = 0,
    Stay = 1,
    Move = 2,
}

// A telegram.
#[derive(Clone, Copy)]
pub struct Message {
    pub kind: Kind,
    pub n: u8,
    pub f: u8,
    pub from: u8,
    pub to: u8,
    pub order: u32,
    pub votes: VoteSet,
}

// The kinds of telegram of a ballot, by their numbers on a record: ask, promise, put, taken.
#[derive(Clone, Copy, Debug, PartialEq, Eq)]
pub enum BallotKind {
    Prepare = 5,
    Promise = 6,
    Accept = 7,
    Accepted = 8,
}

// A telegram of a ballot (document 02, U14): beside what every telegram has, its ballot, the ballot that its sender last took (0 none), and a word.
#[derive(Clone, Copy)]
pub struct BallotMessage {
    pub kind: BallotKind,
    pub n: u8,
    pub f: u8,
    pub from: u8,
    pub to: u8,
    pub order: u32,
    pub votes: VoteSet,
    pub ballot: u8,
    pub last: u8,
    pub word: Outcome,
}

// A telegram of any kind.
#[derive(Clone, Copy)]
pub enum Telegram {
    Plain(Message),
    OfBallot(BallotMessage),
}

// A card. The position is the two's complement of its millimetres.
#[derive(Clone, Copy)]
pub struct Checkpoint {
    pub id: u8,
    pub n: u8,
    pub f: u8,
    pub outcome: Outcome,
    pub order: u32,
    pub position: u32,
}

// An event of a ballot: its owner opens it (kind 10); a telegram of it is delivered (kind 3).
#[derive(Clone, Copy)]
pub enum BallotEvent {
    Open {
        id: u8,
        ballot: u32,
    },
    Carry {
        from: u8,
        to: u8,
        kind: BallotKind,
        ballot: u32,
    },
}

// An event of the bench, in the sequence of its kinds 0 to 8; and those of ballots.
#[derive(Clone, Copy)]
pub enum Event {
    // a lock; do its controllers settle the word by ballots of their own
    Lock { n: u8, f: u8, own: bool },
    Order { number: u32 },
    // a vote; the target is the two's complement of its millimetres
    Cast { id: u8, willing: bool, target: u32 },
    Deliver { from: u8, to: u8, kind: Kind },
    // a bell
    Timeout { id: u8 },
    // the arbiter's word: is it Move
    Decide { id: u8, to_move: bool },
    Stop { id: u8 },
    Save { id: u8 },
    Restore { id: u8 },
    OfBallots { event: BallotEvent },
}

// The questions of the documents, by their numbers: what is refused names the first one that it fails.
#[derive(Clone, Copy, Debug, PartialEq, Eq)]
pub enum Refusal {
    Length = 1,
    Mark = 2,
    Listed = 3,
    Sizes = 4,
    LockSetUp = 5,
    NoLock = 6,
    Controllers = 7,
    OrderNumber = 8,
    VoteSet = 9,
    Route = 10,
    Position = 11,
    LaterOrder = 12,
    GatesClosed = 13,
    OrderOpen = 14,
    Condition = 15,
    Stage = 16,
    Sent = 17,
    WordPut = 18,
    Saved = 19,
    LevelRange = 20,
    LevelOrder = 21,
    Lockages = 22,
    Drawn = 23,
    Contradiction = 24,
    Lock = 25,
    Remembered = 26,
    Schedules = 27,
    Ballot = 28,
    BallotWord = 29,
    OwnCard = 30,
}

// What a schedule has: an event, or a step back (kind 9; document 02, U11). It stands above events: no rule and no question of one knows of it.
// stays (no plainer): as an Option, a step back would be the lack of an event.
#[derive(Clone, Copy)]
pub enum Act {
    Play(Event),
    Back,
}

impl Telegram {
    // the short forms, for locks of up to so many controllers: of a plain telegram, and of one of a ballot
    pub const SHORT_LIMIT: u8 = 16;

    pub const SHORT_MARK: u32 = 0x4C4B;

    pub const SHORT_LENGTH: usize = 16;

    pub const SHORT_BALLOT_LENGTH: usize = 20;

    // the long forms, for locks of more
    pub const LONG_MARK: u32 = 0x4C4C;

    pub const LONG_LENGTH: usize = 20;

    pub const LONG_BALLOT_LENGTH: usize = 24;
}

impl Checkpoint {
    pub const MARK: u32 = 0x4C53;

    pub const LENGTH: usize = 14;
}

impl Event {
    pub const MARK: u32 = 0x4C45;

    pub const LENGTH: usize = 10;
}
