//! What is at hand of all queues whose contents stay in the store (MQTT 5.0, 4.1, 4.6).

mod contents;
mod fetching;
mod following;
mod hand;
mod laws;

pub use self::hand::AllAtHand;
pub use self::laws::{newest_is_found, stays_what_is_stored};
