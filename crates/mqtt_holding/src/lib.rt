//! Which connections the server leaves unread for a while, so that no queue grows faster than its client takes it (ours).
#![tactic(auto)]

mod laws;
mod mark;
mod seen;

pub use laws::{nobody_is_held_for_ever, nobody_is_held_without_need};
pub use mark::{MARK, mark_of};
pub use seen::{HOLD_TIME, STALL_TIME, Seen};
