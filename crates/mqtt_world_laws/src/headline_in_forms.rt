//! Exactly-once delivery of runs in which PUBLISH goes out in forms (MQTT 5.0, 3.3.2.3.4, 3.3.4, 4.3, 4.4, 4.6, 4.8, 4.9).

mod laws;

pub use self::laws::messages_in_forms_are_delivered_exactly_once;
