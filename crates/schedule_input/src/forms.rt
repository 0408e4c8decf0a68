// Which form a schedule has, and its records.
ghost use Rattle.std.specs.Prelude.{◌≡◌};
ghost use Rattle.schedule_text.specs.Texts.{answer_to, buffer_after};
ghost use Rattle.schedule_input.specs.Input.{marked, is_control, has_control, is_text, records_in};

use schedule_text::{TurnError, read};
use text::write_bytes;

fn marked(s: &[u8]) -> bool
    ensures { result ≡ marked s.now }
{
    match s {
        [] => false,
        [a] => *a == 0x4C,
        [a, b, ..] => *a == 0x4C && *b == 0x45,
    }
}

#[tactic(auto, unfolding(crate::specs::Input::is_control))]
fn is_control(b: u8) -> bool
    ensures { result ≡ is_control b }
{
    b < b' ' && !matches!(b, b'\t' | b'\n' | b'\r')
}

#[tactic(auto, unfolding(crate::specs::Input::has_control))]
fn has_control(s: &[u8]) -> bool
    ensures { result ≡ has_control s.now }
{
    s.iter().any(|b| is_control(*b))
}

// Not marked as records, and without control bytes.
#[tactic(auto, unfolding(crate::specs::Input::is_text))]
pub fn is_text(s: &[u8]) -> bool
    ensures { result ≡ is_text s.now }
{
    !marked(s) && !has_control(s)
}

// Writes the records of a schedule in either form to the front of the buffer, all of them or none.
pub fn records_in(s: &[u8], out: &mut [u8]) -> Result<usize, TurnError>
    ensures { (result ≡ answer_to (records_in s.now) out.old) × (out.new ≡ buffer_after (records_in s.now) out.old) }
{
    if is_text(s) {
        return read(s, &mut *out);
    }
    if out.len() < s.len() {
        return Err(TurnError::NoRoom);
    }
    Ok(write_bytes(&mut *out, s))
}
