// Checkpoint records, the cards of document 01: their reader and writer.
#![tactic(auto)]

ghost use Rattle.std.specs.Prelude.{◌≡◌, [], ◌∷◌};
ghost use Rattle.model.specs.Questions.{first_no};
ghost use Rattle.model.specs.Refusals.{numbered, reply_of};
ghost use Rattle.records.specs.Codec.{bytes_of, reads, write_reply, writes};
ghost use Rattle.records.specs.Promises.{Promises, AskedInSequence};
ghost use Rattle.checkpoint_record.specs.Checkpoints.{about_checkpoint, checkpoints};

use model::{Checkpoint, Outcome, Refusal};
use records::{frame_question, number4, write_record};

// Questions 4, 7, 8 and 11.
fn question(p: Checkpoint) -> Result<(), Refusal>
    ensures { reply_of result ≡ first_no (about_checkpoint p) }
{
    if !model::sizes_in_range(p.n, p.f) {
        return Err(Refusal::Sizes);
    }
    if !model::is_controller(p.n, p.id) {
        return Err(Refusal::Controllers);
    }
    if p.order < 1 {
        return Err(Refusal::OrderNumber);
    }
    if !model::position_in_range(p.position) {
        return Err(Refusal::Position);
    }
    Ok(())
}

// The questions of reading, in their sequence: 1, 2 and 3 here, the rest of the checkpoint.
pub fn read_checkpoint(s: &[u8]) -> Result<Checkpoint, Refusal>
    ensures { numbered result ≡ reads checkpoints s.now }
{
    frame_question(s, Checkpoint::LENGTH, Checkpoint::MARK)?;
    let outcome = Outcome::try_from(s[5])?;
    let p = Checkpoint {
        id: s[2],
        n: s[3],
        f: s[4],
        outcome,
        order: number4(s, 6),
        position: number4(s, 10),
    };
    question(p)?;
    Ok(p)
}

// The fourteen bytes of a checkpoint.
fn checkpoint_bytes(p: Checkpoint) -> [u8; 14]
    ensures { result ≡ bytes_of checkpoints p }
{
    let mark = Checkpoint::MARK.to_be_bytes();
    let outcome = p.outcome;
    let order = p.order.to_be_bytes();
    let position = p.position.to_be_bytes();
    [
        mark[2],
        mark[3],
        p.id,
        p.n,
        p.f,
        u8::from(outcome),
        order[0],
        order[1],
        order[2],
        order[3],
        position[0],
        position[1],
        position[2],
        position[3],
    ]
}

// A refusal leaves the buffer untouched.
pub fn write_checkpoint(out: &mut [u8], p: Checkpoint) -> Result<(), Refusal>
    ensures { (reply_of result ≡ write_reply checkpoints out.old p) × (out.new ≡ writes checkpoints out.old p) }
{
    let content = checkpoint_bytes(p);
    write_record(out, &content, question(p))
}

// What is promised of these records: reading answers as the questions do, both round trips, and a refused write's buffer.
pub fn round_trips()
    ensures { Promises checkpoints }
{}

// In which sequence the questions are put: to a record that is read; to a buffer and a checkpoint to be written into it.
pub fn asked_in_sequence()
    ensures { AskedInSequence checkpoints (λ k. 1 ∷ 2 ∷ 3 ∷ 4 ∷ 7 ∷ 8 ∷ 11 ∷ []) (λ k. 1 ∷ 4 ∷ 7 ∷ 8 ∷ 11 ∷ []) }
{}
