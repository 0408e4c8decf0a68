// "The schedule is read from its front, one record at a time": a thin struct of the schedule's slice and a position in it. A run begins with the reader
// at the front, and reads each record through a reader at its place (`record_at`, which has plain parameters).
#![tactic(auto)]

ghost use Rattle.std.specs.Prelude.{◌≡◌, ◌+◌, ◌≤◌, min};
ghost use Rattle.model.specs.Refusals.{numbered};
ghost use Rattle.event_record.specs.Events.{event_length};
ghost use Rattle.schedule_reader.specs.Pieces.{record_at};

use event_record::read_event;
use model::{Act, Event, Refusal};

#[derive(Clone, Copy)]
pub struct Reader<'a> {
    pub src: &'a [u8],
    pub at: usize,
}

// Where the piece from a place on ends.
fn piece_end(at: usize, len: usize) -> usize
    requires { at ≤ len }
    ensures { (result ≡ min (at + event_length) len) × (at ≤ result) }
{
    at.saturating_add(Event::LENGTH).min(len)
}

// The record at a place of a slice: its ten bytes, or what is left of them, are lent to the event reader.
fn event_at(s: &[u8], at: usize) -> Result<Act, Refusal>
    ensures { numbered result ≡ record_at s.now at }
{
    if s.len() < at {
        return Err(Refusal::Length);
    }
    let to = piece_end(at, s.len());
    read_event(&s[at..to])
}

// A reader of a schedule, at a position.
pub fn reader_at<'a>(src: &'a [u8], at: usize) -> Reader<'a>
    ensures { (result.src ≡ src.entry) × (result.at ≡ at) }
{
    Reader { src, at }
}

// The record that a reader stands at.
fn next<'a>(r: Reader<'a>) -> Result<Act, Refusal>
    ensures { numbered result ≡ record_at r.entry.src.now r.entry.at }
{
    event_at(r.src, r.at)
}

// The record at a position of a schedule; a short last piece, and no piece, are refused with 1.
pub fn record_at(s: &[u8], at: usize) -> Result<Act, Refusal>
    ensures { numbered result ≡ record_at s.now at }
{
    next(reader_at(s, at))
}
