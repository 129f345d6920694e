//! What is kept, with the sessions found by their client identifiers (MQTT 5.0, 3.1.3.1, 4.1).

mod digest;
mod named;
mod slim;

pub use self::named::NamedRecords;
