// Writers of text. A `Writer` puts texts into a buffer, one after the other. A `write` function writes a whole text to the front of the buffer and answers its
// length; or, where the buffer is too short, nothing and 0.
#![tactic(auto)]

mod writer;
mod writing;

ghost use Rattle.std.specs.Prelude.{◌≡◌};
ghost use Rattle.text.specs.Text.{refusal};
ghost use Rattle.text.specs.Writing.{fitted, fitted_length, line_to};

pub use writer::Writer;

// A text that is already bytes, whole or not at all.
pub fn write_bytes(out: &mut [u8], bytes: &[u8]) -> usize
    ensures value { result ≡ fitted_length bytes.now out.old }
    ensures out_after { out.new ≡ fitted bytes.now out.old }
{
    if out.len() < bytes.len() {
        return 0;
    }
    out[..bytes.len()].copy_from_slice(bytes);
    bytes.len()
}

// A line of two numbers is no longer.
pub const LINE: usize = 22;

// A line that was put at the front of an array of its own, whole or not at all. An array has no place past its end: for such an `end` nothing is written.
pub fn write_line(out: &mut [u8], line: [u8; LINE], end: usize) -> usize
    ensures value { result ≡ fitted_length (line_to line end) out.old }
    ensures out_after { out.new ≡ fitted (line_to line end) out.old }
{
    if end <= LINE {
        return write_bytes(&mut *out, &line[..end]);
    }
    0
}

// A line with a dash and the number of a refusal: the one line of a program that refuses its whole input.
pub fn write_refusal(out: &mut [u8], number: u32) -> usize
    ensures value { result ≡ fitted_length (refusal number) out.old }
    ensures out_after { out.new ≡ fitted (refusal number) out.old }
{
    let mut line = [0u8; LINE];
    let mut w = Writer::new(&mut line);
    w.byte(b'-');
    w.field(number);
    w.byte(b'\n');
    let end = w.at;
    write_line(&mut *out, line, end)
}
