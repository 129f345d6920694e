//! The language of scripts: the events of a world, a line for each, the text of what a world tells, and how a replay ends
//! (ours).
#![tactic(auto)]

mod bad_line;
mod event;
mod fault;
mod laws;
mod reading;
mod replay_fault;
mod telling;
mod words;

pub use bad_line::{BadLine, BadReason, why_no_event};
pub use event::{Asking, Content, Draft, Event, Wish};
pub use fault::ScriptFault;
pub use laws::one_event;
pub use reading::{event_of, is_passed_over};
pub use replay_fault::{Played, ReplayFault};
pub use telling::{
    push_accepted, push_bad, push_broker, push_ended, push_entered, push_number, push_out,
    push_publisher, push_receiver, push_released, push_will_refused,
};
