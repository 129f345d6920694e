//! What is retained for a topic, over every run (MQTT 5.0, 3.3.1.3).

mod laws;

pub use self::laws::what_is_retained_was_published_last;
