//! The laws that brokers which are alike but for what their waiting copies say can do the same calls, and be opened (MQTT
//! 5.0, 4.1).

mod laws;

pub use self::laws::{alike_brokers_are_ready, alike_records_can_be_opened};
