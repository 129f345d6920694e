//! The law of order: a publisher's messages are handed over in the order in which it published them (MQTT 5.0, 4.6).

mod laws;

pub use self::laws::{
    what_is_published_first_is_read_first, what_is_published_first_is_received_first,
};
