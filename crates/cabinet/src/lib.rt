// The controller in other people's programs: calls for C on words that the caller lends (`include/cabinet.h`). Each
// answers 0 or the number of a question; what is refused changes nothing.
#![tactic(auto)]

mod calls;
mod lent;

pub use calls::{
    cabinet_begin, cabinet_decide, cabinet_open, cabinet_order, cabinet_receive, cabinet_stop,
    cabinet_timeout, cabinet_vote, cabinet_wake,
};
pub use lent::{cabinet_save, cabinet_show, cabinet_telegram, cabinet_telegram_length};
