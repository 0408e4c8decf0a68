// The one line that is printed where a line or a record is refused.
ghost use Rattle.std.specs.Prelude.{◌≡◌, ◌-◌, ◌^◌, ◌≤◌, min, take};
ghost use Rattle.text.specs.Writers.{Wrote};
ghost use Rattle.text.specs.Writing.{WrittenWhole};
ghost use Rattle.schedule_input.specs.Input.{word_shown, refused_word, refused_line, refused_record};

use text::{Writer, write_bytes};
use words::{nth_line, nth_word, uncommented};

// No such line is longer.
const ROOM: usize = 60;

// A number of a line or of a record as it is printed: above the highest of 32 bits, that one.
fn printed(k: usize) -> u32
    ensures { result ≡ min k (2 ^ 32 - 1) }
{
    k.min(0xFFFF_FFFF) as u32
}

fn put_shown(w: &mut Writer, word: &[u8])
    ensures { Wrote w.old w.new (word_shown word.now) }
{
    if word.is_empty() {
        return w.bytes(b"end of line");
    }
    w.bytes(&word[..word.len().min(40)])
}

fn put_refused_word(w: &mut Writer, line: usize, word: &[u8])
    ensures { Wrote w.old w.new (refused_word line word.now) }
{
    w.bytes(b"- line ");
    w.number(printed(line));
    w.bytes(b": ");
    put_shown(w, word);
    w.byte(b'\n')
}

fn put_refused_line(w: &mut Writer, s: &[u8], line: usize, word: usize)
    ensures { Wrote w.old w.new (refused_line s.now line word) }
{
    let l = uncommented(nth_line(s, line.saturating_sub(1)));
    put_refused_word(w, line, nth_word(l, word))
}

// The number of a refused line and the first word of it that was not expected, whole or not at all.
pub fn write_refused_line(out: &mut [u8], s: &[u8], line: usize, word: usize) -> usize
    ensures { WrittenWhole (refused_line s.now line word) out.old out.new result }
{
    let mut text = [0u8; ROOM];
    let mut w = Writer::new(&mut text);
    put_refused_line(&mut w, s, line, word);
    let end = w.at;
    write_front(&mut *out, text, end)
}

fn put_refused_record(w: &mut Writer, k: usize, q: usize)
    ensures { Wrote w.old w.new (refused_record k q) }
{
    w.bytes(b"- record ");
    w.number(printed(k));
    w.bytes(b": ");
    w.number(printed(q));
    w.byte(b'\n')
}

// The index of a refused record and the number of the question, whole or not at all.
pub(crate) fn write_refused_record(out: &mut [u8], k: usize, q: usize) -> usize
    ensures { WrittenWhole (refused_record k q) out.old out.new result }
{
    let mut text = [0u8; ROOM];
    let mut w = Writer::new(&mut text);
    put_refused_record(&mut w, k, q);
    let end = w.at;
    write_front(&mut *out, text, end)
}

// What stands at the front of an array, up to a place in it.
fn write_front(out: &mut [u8], text: [u8; ROOM], end: usize) -> usize
    requires { end ≤ 60 }
    ensures { WrittenWhole (take end text) out.old out.new result }
{
    write_bytes(&mut *out, &text[..end])
}
