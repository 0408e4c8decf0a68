// The report over many schedules but for its reading and writing (document 02, U13): from the ten bytes of a record to the page or a refusal, in a lent buffer.
#![tactic(auto)]

mod schedules;
mod surveying;

ghost use Rattle.std.specs.Prelude.{◌≡◌};
ghost use Rattle.text.specs.Writing.{Rendered, WrittenWhole};
ghost use Rattle.survey_output.specs.Output.{output_for, output_of, longest_output, AllFit};
ghost use Rattle.survey_output.specs.Claim.{AsShown};

use records::{number2, number4};
use survey::{LONGEST_PAGE, refusal_of, write_page};
use surveying::survey_of;
use text::write_refusal;

// No output is longer; a refusal is shorter than a page can be.
pub const LONGEST_OUTPUT: usize = LONGEST_PAGE;

// The bytes of a record: n, f, count (2), s (4), k (2).
const RECORD: usize = 10;

// The page, or the refusal.
fn write_for(out: &mut [u8], n: u8, f: u8, count: u32, s: u32, k: u32) -> usize
    ensures { WrittenWhole (output_for n f count s k) out.old out.new result }
{
    match refusal_of(n, f, count, s, k) {
        Err(q) => write_refusal(&mut *out, u32::from(u8::from(q))),
        Ok(()) => write_page(&mut *out, survey_of(n, f, count, s, k), k),
    }
}

// Writes the program's whole output for an input to the front of the buffer and answers its length; 0, and nothing written, if it does not fit.
pub fn render(input: &[u8], out: &mut [u8]) -> usize
    ensures { Rendered (output_of input.now) out.old out.new result }
{
    if input.len() != RECORD {
        return write_refusal(&mut *out, 1);
    }
    let count = number2(input, 2);
    let s = number4(input, 4);
    let k = number2(input, 8);
    write_for(&mut *out, input[0], input[1], count, s, k)
}

// The same for programs in other languages: a slice passes as pointer and length.
#[unsafe(no_mangle)]
pub extern "C" fn report_render(input: &[u8], out: &mut [u8]) -> usize
    ensures { Rendered (output_of input.now) out.old out.new result }
{
    render(input, &mut *out)
}

// The definitions' longest output is the code's, and every output of every input fits it.
pub fn longest_output() -> usize
    ensures { (result ≡ longest_output) × AllFit }
{
    LONGEST_OUTPUT
}

// What a schedule's end shows is its bench: who is stopped, and who ended how.
pub fn as_shown()
    ensures { AsShown }
{}
