// Steps back on the bench (document 02, U11). The definitions, the claim and the trials stand in specs/.
#![tactic(auto)]

ghost use Rattle.std.specs.Prelude.{◌≡◌};
ghost use Rattle.model.specs.Refusals.{reply_of};
ghost use Rattle.steps_back.specs.Claim.{StepsBack};
ghost use Rattle.steps_back.specs.Memory.{most_remembered, back_reply};
ghost use Rattle.steps_back.specs.Trials.{BackTrialsHold};

use model::{Refusal, ask};

// What holds of every list of acts.
pub fn steps_back()
    ensures { StepsBack }
{
    protocol::demand_3();
    protocol::termination();
    protocol::clean_messages();
    protocol::no_contradiction();
    protocol::open_count();
}

// Every row of the tables in specs/Trials.antt shows what the documents say of it.
pub fn back_trials_hold()
    ensures { BackTrialsHold }
{}

// The most events that are remembered.
pub const MOST_REMEMBERED: usize = 64;

// The constant is the definition's.
pub fn most_remembered() -> usize
    ensures { result ≡ most_remembered }
{
    MOST_REMEMBERED
}

// The questions of a step back: is the lock set up, and is an event remembered?
#[tactic(auto, unfolding(model::specs::Questions::first_no, model::specs::Questions::unless))]
pub fn back_question(locked: bool, some: bool) -> Result<(), Refusal>
    ensures { reply_of result ≡ back_reply locked some }
{
    ask(locked, Refusal::LockSetUp)?;
    ask(some, Refusal::Remembered)
}
