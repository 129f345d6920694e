//! Laws of what a receiver is not handed, in every run of the world: copies that expired or made way in a full queue, and
//! whatever else ends while it waits; and what has ended (MQTT 5.0, 3.3.2.3.3, 4.3).

mod laws;

pub use self::laws::{what_has_ended_is_over, what_was_never_sent_is_never_handed_over};
