// A schedule as text, one act a line in the documents' words, and as records: the one from the other.
#![tactic(auto)]

mod forms;
mod reading;
mod writing;

ghost use Rattle.schedule_text.specs.BothWays.{BothWays};
ghost use Rattle.schedule_text.specs.LineForLine.{LineForLine};

pub use forms::put_rest;
pub use reading::read;
pub use writing::write;

// What may stand at a place of a line: the word for the kind; controllers, or n and f, in a and b; a number in the value; a target in it; willing or not; the
// arbiter's word; the kind of a telegram; that a lock's controllers are their own arbiter; nothing more.
#[derive(Clone, Copy)]
pub enum Slot {
    Verb,
    A,
    B,
    Number,
    Target,
    Willing,
    Word,
    Telegram,
    Own,
    End,
}

// The form of a line after its first word.
#[derive(Clone, Copy)]
pub(crate) struct Row {
    pub first: Slot,
    pub second: Slot,
    pub third: Slot,
    pub fourth: Slot,
}

// Which word of a line was not expected.
#[derive(Clone, Copy, Debug, PartialEq, Eq)]
pub(crate) struct Unexpected(pub usize);

// Why nothing was written: something was refused, for a fault in it (line and word of a text, record and question of a schedule); or there is too little room.
#[derive(Clone, Copy, Debug, PartialEq, Eq)]
pub enum TurnError {
    Refused { at: usize, by: usize },
    NoRoom,
}

// Both ways: the text of a schedule, read, gives the same bytes; and what a refusal says.
pub fn both_ways()
    ensures { BothWays }
{}

// Lines of every form and their records, and lines with one fault each.
pub fn line_for_line()
    ensures { LineForLine }
{}
