// The file of a starting number, in a lent buffer.
ghost use Rattle.std.specs.Prelude.{◌≡◌, ◌*◌, ◌<◌};
ghost use Rattle.text.specs.Writers.{Wrote};
ghost use Rattle.text.specs.Writing.{Put};
ghost use Rattle.model.specs.Refusals.{reply_of};
ghost use Rattle.model.specs.declared.Act.TheVariants.{Play};
ghost use Rattle.event_record.specs.Events.{event_length, event_bytes};
ghost use Rattle.generator.specs.File.{event_records, votes_to, drawn_from, file_of, refusal_of, reply_to, generated};
ghost use Rattle.generator.specs.Claim.{records_in, Files};

use crate::drawing::drawn_event;
use event_record::write_event;
use model::{Act, Event, Refusal, sizes_in_range};
use text::Writer;

// The most events that are drawn.
pub const MOST_DRAWN: u32 = 4000;

// Ten bytes for each record: lock, order, votes, drawn events.
pub fn file_length(n: u8, count: u32) -> usize
    ensures { result ≡ event_length * records_in n count }
{
    Event::LENGTH * (2 + n as usize + count as usize)
}

// The record of an event.
fn put_record(w: &mut Writer, e: Event)
    ensures { Wrote w.old w.new (event_bytes (Play e)) }
{
    let mut record = [0u8; Event::LENGTH];
    // ten bytes are never refused
    let _ = write_event(&mut record, Act::Play(e));
    w.bytes(&record)
}

// All votes, willing, in rising number.
fn put_votes(w: &mut Writer, n: u8)
    ensures { Wrote w.old w.new (event_records (votes_to n)) }
{
    for k in 0..n {
        let vote = Event::Cast {
            id: k + 1,
            willing: true,
            target: 0,
        };
        put_record(w, vote);
    }
}

// The drawn events.
fn put_drawn(w: &mut Writer, n: u8, count: u32, start: u32)
    requires { 0 < n }
    ensures { Wrote w.old w.new (event_records (drawn_from n count start)) }
{
    let mut state = start;
    for drawn in 0..count {
        let d = drawn_event(n, state);
        put_record(w, d.event);
        state = d.state;
    }
}

// The whole file.
fn put_file(out: &mut [u8], n: u8, f: u8, count: u32, start: u32) -> usize
    requires { 0 < n }
    ensures { Put out.old out.new 0 result (file_of n f count start) }
{
    let mut w = Writer::new(out);
    put_record(&mut w, Event::Lock { n, f, own: false });
    put_record(&mut w, Event::Order { number: 1 });
    put_votes(&mut w, n);
    put_drawn(&mut w, n, count, start);
    w.at
}

// Whether such a file is made: first n and f are asked, then a starting number of 0 or a count above 4,000.
pub(crate) fn refusal_of(n: u8, f: u8, count: u32, start: u32) -> Result<(), Refusal>
    ensures { reply_of result ≡ refusal_of n f count start }
{
    if !sizes_in_range(n, f) {
        return Err(Refusal::Sizes);
    }
    if start == 0 {
        return Err(Refusal::Drawn);
    }
    if MOST_DRAWN < count {
        return Err(Refusal::Drawn);
    }
    Ok(())
}

// Writes the file; or answers the first refusal, and the buffer is untouched: 4, 23, then 1 for a buffer not as long as the file.
pub fn generate(n: u8, f: u8, count: u32, start: u32, out: &mut [u8]) -> Result<(), Refusal>
    ensures { (reply_of result ≡ reply_to n f count start out.old) × (out.new ≡ generated n f count start out.old) }
{
    refusal_of(n, f, count, start)?;
    if out.len() != file_length(n, count) {
        return Err(Refusal::Length);
    }
    put_file(&mut *out, n, f, count, start);
    Ok(())
}

// What is promised of every file: it reads without refusals 1 to 3, it has ten bytes for each record, no state is 0.
pub fn files()
    ensures { Files }
{
    event_record::round_trips();
    xorshift::draws();
}
