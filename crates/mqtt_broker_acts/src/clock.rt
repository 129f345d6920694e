//! A turn of the clock, as the rules have it, over the tables of a step (MQTT 5.0, 3.1.2.10, 3.1.2.11.2,
//! 3.1.3.2.2, 3.3.2.3.3).

mod finding;
mod quiet;
mod ticking;

pub use self::finding::{
    Due, due_end, due_will, lapsed_session, next_due, silent_number, stale_message,
};
pub use self::quiet::{quiet_after, quiet_before};
pub use self::ticking::tick;
