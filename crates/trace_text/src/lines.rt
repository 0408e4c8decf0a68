// Single lines.
ghost use Rattle.std.specs.Prelude.{cond, [], ◌++◌};
ghost use Rattle.text.specs.Writers.{Wrote};
ghost use Rattle.trace.specs.Lines.{Answered, Undone, verdict, told_of, line_text};

use event_record::fields_of;
use model::{Act, Event};
use question_words::put_question;
use schedule_text::put_rest;
use text::Writer;

fn put_verdict(w: &mut Writer, answer: u8)
    ensures { Wrote w.old w.new (verdict answer) }
{
    if answer == 0 {
        return w.bytes(b"accepted");
    }
    w.bytes(b"refused: ");
    put_question(w, answer)
}

pub(crate) fn put_answered(w: &mut Writer, k: u32, answer: u8)
    ensures { Wrote w.old w.new (line_text (Answered k answer)) }
{
    w.number(k);
    w.field(answer as u32);
    w.byte(b' ');
    put_verdict(w, answer);
    w.byte(b'\n')
}

pub(crate) fn put_undone(w: &mut Writer, k: u32)
    ensures { Wrote w.old w.new (line_text (Undone k)) }
{
    w.bytes(b"undone");
    w.field(k);
    w.byte(b'\n')
}

// A first word, and what follows that of an event's line.
pub(crate) fn put_told(w: &mut Writer, verb: &[u8], e: Event)
    ensures { Wrote w.old w.new (verb.now ++ told_of e) }
{
    w.bytes(verb);
    put_rest(w, fields_of(Act::Play(e)))
}

// The same, if a test says so.
pub(crate) fn put_told_if(w: &mut Writer, shows: bool, verb: &[u8], e: Event)
    ensures { Wrote w.old w.new (cond shows (verb.now ++ told_of e) []) }
{
    if shows {
        return put_told(w, verb, e);
    }
    w.bytes(b"")
}
