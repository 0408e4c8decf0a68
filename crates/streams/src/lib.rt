// Standard input and output of a program. Where one fails, a line on standard error says which, and the system's word for it.
#![tactic(auto, using(crate::specs::Streams::either_way))]

ghost use Rattle.std.specs.Prelude.{ℕ, List, ◌^◌, ◌<◌, ◌≤◌, ◌≡◌, length, is_ok, is_err, IfOk, MatchResult};
ghost use Rattle.text.specs.Writing.{Rendered};
ghost use Rattle.streams.specs.Streams.{EitherWay, IsPrefixLen};

use std::io;
use std::io::{IsTerminal, Read, Write};

// Reading or writing failed, and standard error says so.
#[derive(Clone, Copy, Debug, PartialEq, Eq)]
pub struct Failed;

// Reading failed after so many bytes.
#[derive(Clone, Copy, Debug, PartialEq, Eq)]
pub struct CutShort {
    pub count: usize,
}

impl From<CutShort> for Failed {
    fn from(_e: CutShort) -> Failed {
        Failed
    }
}

// Reads standard input until the buffer is full, the input ends or reading fails. Which of these it is, and the bytes, are the system's to say; in each
// case the count is of bytes at the buffer's front, and the buffer is as long as it was.
pub fn read_input(rt: &HostRuntime, buf: &mut [u8]) -> Result<usize, CutShort>
    ensures prefix_len { MatchResult result (λ n. IsPrefixLen n buf.new) (λ e. IsPrefixLen e.count buf.new) }
    ensures either_way { EitherWay (is_err result) × (length buf.new ≡ length buf.old) }
{
    let mut count: usize = 0;
    // stays (no plainer): each turn reads as much as there is
    while count < buf.len() {
        let more = read_some(rt, &mut buf[count..]).map_err(|_| CutShort { count })?;
        if more == 0 {
            return Ok(count);
        }
        count += more;
    }
    Ok(count)
}

// One read: what is there now, as far as the buffer goes, so that whoever types a line is answered at once. With a count of 0 the input is at its end.
pub fn read_some(rt: &HostRuntime, buf: &mut [u8]) -> Result<usize, Failed>
    ensures prefix_len { IfOk result (λ n. IsPrefixLen n buf.new) }
    ensures either_way { EitherWay (is_err result) × (length buf.new ≡ length buf.old) }
{
    rt.stdin()
        .read(&mut *buf)
        .map_err(|e| told(rt, "standard input", e))
}

// Is standard input a terminal? The system says.
pub fn is_terminal(rt: &HostRuntime) -> bool
    ensures { EitherWay result }
{
    rt.stdin().is_terminal()
}

// Writes a text to standard output. Whether all of it was taken is the system's to say.
pub fn write_output(rt: &HostRuntime, text: &[u8]) -> Result<(), Failed>
    ensures { EitherWay (is_ok result) }
{
    rt.stdout()
        .write_all(text)
        .map_err(|e| told(rt, "standard output", e))
}

// A line on standard error: which stream, and the system's word for what failed. Where it cannot be written either, there is nobody to tell.
fn told(rt: &HostRuntime, stream: &str, e: io::Error) -> Failed {
    let _ = eprintln!(rt; "{stream}: {e}");
    Failed
}

// Renders what was read, and prints it. The buffer for the text is made here, when the input is there, so that it is cleared once.
fn print_text<const OUTPUT: usize, F: FnOnce(&[u8], &mut [u8]) -> usize>(
    rt: &HostRuntime,
    input: &[u8],
    render: F,
)
    requires takes { F.IsAlwaysCallable render }
    requires size { OUTPUT < 2 ^ 63 }
    requires whole { (text : List ℕ → List ℕ)
        × ((s : List ℕ) → length (text s) ≤ OUTPUT)
        × ((s : _) (out : _) (r : ℕ) (after : _) → F.post render s out r after → Rendered (text s.now) out.now after.now r) }
{
    let mut text = [0u8; OUTPUT];
    let length = render(input, &mut text);
    let _ = write_output(rt, &text[..length]);
}

// A program that reads once and prints once. The buffers are part of its type: one byte more than an input may have, so that a longer one is known by it,
// and room for every text that the rule renders, so that none is left out.
pub fn print_rendered<
    const INPUT: usize,
    const OUTPUT: usize,
    F: FnOnce(&[u8], &mut [u8]) -> usize,
>(rt: &HostRuntime, render: F)
    requires takes { F.IsAlwaysCallable render }
    requires sizes { (INPUT < 2 ^ 63) × (OUTPUT < 2 ^ 63) }
    requires whole { (text : List ℕ → List ℕ)
        × ((s : List ℕ) → length (text s) ≤ OUTPUT)
        × ((s : _) (out : _) (r : ℕ) (after : _) → F.post render s out r after → Rendered (text s.now) out.now after.now r) }
{
    let mut input = [0u8; INPUT];
    if let Ok(n) = read_input(rt, &mut input) {
        print_text::<OUTPUT, F>(rt, &input[..n], render);
    }
}

// Round after round, as long as there may be another and none fails. A proved loop has to end, so they are counted, up to `most`.
pub fn rounds<F: FnMut() -> Result<bool, Failed>>(most: u64, mut round: F)
    requires { F.IsAlwaysCallable round }
{
    for _ in 0..most {
        if !round().unwrap_or(false) {
            return;
        }
    }
}
