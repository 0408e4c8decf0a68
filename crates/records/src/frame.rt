// What reading and writing have in common, whatever the record: length, mark and buffer.
ghost use Rattle.std.specs.Prelude.{◌≡◌};
ghost use Rattle.model.specs.Questions.{first_no};
ghost use Rattle.model.specs.Refusals.{reply_by, reply_of};
ghost use Rattle.records.specs.Frames.{frame_questions, PutUnless};

use crate::number2;
use model::{Numbered, Refusal};

// Questions 1 and 2.
pub fn frame_question(s: &[u8], size: usize, mark: u32) -> Result<(), Refusal>
    ensures { reply_of result ≡ first_no (frame_questions size mark s.now) }
{
    if s.len() != size {
        return Err(Refusal::Length);
    }
    if number2(s, 0) != mark {
        return Err(Refusal::Mark);
    }
    Ok(())
}

// Puts the content of a record into a buffer of its length, unless its own questions have given a refusal. A refusal leaves the buffer untouched.
pub fn write_record<Q: Numbered>(
    out: &mut [u8],
    content: &[u8],
    asked: Result<(), Q>,
) -> Result<(), Q>
    ensures { PutUnless content.now (reply_by Q.number asked) out.old out.new (reply_by Q.number result) }
{
    if out.len() != content.len() {
        return Err(Q::of(Refusal::Length));
    }
    asked?;
    out.copy_from_slice(content);
    Ok(())
}
