// The generator program but for its reading and writing: from n, f, count and start as bytes to the file or a refusal, in a lent buffer.
ghost use Rattle.std.specs.Prelude.{◌≡◌};
ghost use Rattle.text.specs.Writing.{Rendered, WrittenWhole};
ghost use Rattle.generator.specs.Output.{output_for, output_of, longest_output, AllFit};

use crate::file::{MOST_DRAWN, file_length, generate, refusal_of};
use ground::LIMIT;
use records::{number2, number4};
use text::write_refusal;

// No output is longer: the file of the most controllers and the most drawn events, ten bytes for each record.
pub const LONGEST_OUTPUT: usize = 10 * (2 + LIMIT + MOST_DRAWN as usize);

// The file, or the refusal.
fn write_for(out: &mut [u8], n: u8, f: u8, count: u32, start: u32) -> usize
    ensures { WrittenWhole (output_for n f count start) out.old out.new result }
{
    let length = file_length(n, count);
    match refusal_of(n, f, count, start) {
        Err(q) => write_refusal(&mut *out, u32::from(u8::from(q))),
        Ok(()) if out.len() < length => 0,
        Ok(()) => {
            // neither refused nor of another length
            let _ = generate(n, f, count, start, &mut out[..length]);
            length
        }
    }
}

// Writes the program's whole output for an input to the front of the buffer and answers its length; 0, and nothing written, if it does not fit.
pub fn render(input: &[u8], out: &mut [u8]) -> usize
    ensures { Rendered (output_of input.now) out.old out.new result }
{
    if input.len() != 8 {
        return write_refusal(&mut *out, 1);
    }
    let count = number2(input, 2);
    let start = number4(input, 4);
    write_for(&mut *out, input[0], input[1], count, start)
}

// The definitions' longest output is the code's, and every output of every input fits it.
pub fn longest_output() -> usize
    ensures { (result ≡ longest_output) × AllFit }
{
    LONGEST_OUTPUT
}
