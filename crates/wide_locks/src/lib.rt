// Locks of more than 16 controllers (document 02, U12): clean orders of 24 gates and of 32, run by the definitions. They stand apart from the other trials, since they take longer.
#![tactic(auto)]

ghost use Rattle.wide_locks.specs.WideTrials.{WideTrialsHold};

// Every row of the table in specs/WideTrials.antt shows what the documents say of it.
pub fn wide_trials_hold()
    ensures { WideTrialsHold }
{}
