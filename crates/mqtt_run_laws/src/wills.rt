//! What becomes of each Will, and when (MQTT 5.0, 3.1.2.5, 3.1.3.2.2, 3.14.4).

mod laws;

pub use self::laws::{each_will_stands_or_ended_once, wills_are_published_when_due};
