//! What is at hand of the copies of one queue whose contents stay in the store (MQTT 5.0, 4.1, 4.6).

mod at_hand;
mod laws;
mod ring;

pub use self::at_hand::{AT_HAND_LIMIT, AtHand};
pub use self::laws::{at_hand_is_what_is_told, others_stay_at_hand, stays_consecutive};
