// A controller's parts, the small changes that its rules are made of, and what it may answer. Each function is equal to the definition of its name.
#![tactic(auto)]

mod answers;
mod changes;
mod conditions;
mod holdings;
mod sends;

pub use answers::{
    acks_to, becomes, contradicted, helps, is_contradicted, is_taken, nothing, passed_over,
    proposing, received, sending, votes_to,
};
pub use changes::{advance, aim, await_help, blank, cleared, conclude, freeze, fresh, learn};
pub use conditions::{
    in_phase, is_present, is_running, is_standby, is_stopped, landing, noting, or_else, outcome_in,
    phase_after_vote, phase_in, renewed_condition,
};
pub use holdings::{
    bump, cnt_if, counts_suffice, drop_contradicting, from_if, keep_ack, keep_helped, keeps_acks,
    lower, outcome_kept, set_if, set_of,
};
pub use sends::{sent_after, unsent_all};
