// The four lines, in a lent buffer.
ghost use Rattle.std.specs.Prelude.{◌≡◌, ◌∷◌, []};
ghost use Rattle.text.specs.Text.{decimal, line};
ghost use Rattle.text.specs.Writers.{Wrote};
ghost use Rattle.text.specs.Writing.{Put, fitted, fitted_length};
ghost use Rattle.survey.specs.Page.{endings_line, messages_line, page};

use crate::{Endings, Survey};
use bench_report::MessageCounts;
use text::{Writer, write_bytes};

// No page is longer: eleven numbers of ten digits, each with a space or the line's end after it.
pub const LONGEST_PAGE: usize = 11 * 11;

fn put_endings(w: &mut Writer, e: Endings)
    ensures { Wrote w.old w.new (endings_line e) }
{
    w.number(e.moved);
    w.field(e.stayed);
    w.field(e.rest);
    w.byte(b'\n')
}

fn put_messages(w: &mut Writer, m: MessageCounts)
    ensures { Wrote w.old w.new (messages_line m) }
{
    w.number(m.vote);
    w.field(m.ack);
    w.field(m.help);
    w.field(m.helped);
    w.byte(b'\n')
}

// A line of two numbers.
fn put_two(w: &mut Writer, a: u32, b: u32)
    ensures { Wrote w.old w.new (line (decimal a ∷ decimal b ∷ [])) }
{
    w.number(a);
    w.field(b);
    w.byte(b'\n')
}

fn put_page(out: &mut [u8], r: Survey, k: u32) -> usize
    ensures { Put out.old out.new 0 result (page r k) }
{
    let mut w = Writer::new(out);
    put_endings(&mut w, r.endings);
    put_messages(&mut w, r.messages);
    put_two(&mut w, r.most.sent, r.most.number);
    put_two(&mut w, r.sum, k);
    w.at
}

// Writes the page of a report over k schedules to the front of the buffer and answers its length; 0, and nothing written, if it does not fit.
pub fn write_page(out: &mut [u8], r: Survey, k: u32) -> usize
    ensures value { result ≡ fitted_length (page r k) out.old }
    ensures out_after { out.new ≡ fitted (page r k) out.old }
{
    let mut text = [0u8; LONGEST_PAGE];
    let end = put_page(&mut text, r, k);
    write_bytes(&mut *out, &text[..end])
}
