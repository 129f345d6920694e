//! Exactly-once delivery as one law: of every script of events and drains, from nothing stored, and from what an earlier
//! one left (MQTT 5.0, 3.3.4, 4.3, 4.4, 4.6, 4.8, 4.9).

mod laws;

pub use self::laws::{messages_are_delivered_exactly_once, what_a_run_leaves_may_begin_another};
