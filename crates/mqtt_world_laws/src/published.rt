//! The law from publisher to receiver: what is published is received (MQTT 5.0, 3.3.4, 4.3, 4.4).

mod laws;

pub use self::laws::what_is_published_is_received;
