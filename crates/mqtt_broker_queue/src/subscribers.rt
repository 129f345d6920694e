//! An index of the subscriptions of all sessions, by which publications are routed over the tables of a
//! step (MQTT 5.0, 3.3.4, 3.8, 4.8).

mod copies;
mod following;
mod index;
mod laws;
mod look;

pub use self::index::Index;
pub use self::laws::rows_can_be_followed;
