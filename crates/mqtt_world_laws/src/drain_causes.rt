//! Laws of the ends of copies in a drain of a receiver: whose they are, and why they come (MQTT 5.0, 3.1.2.4, 4.3).

mod laws;

pub use self::laws::{copies_of_a_drain_end_by_its_causes, no_copy_is_too_large_in_a_drain};
