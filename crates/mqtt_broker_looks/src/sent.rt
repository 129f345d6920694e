//! The packets that a broker sends, as bytes: each the shortest spelling of the packet that the rules
//! name (MQTT 5.0, 3.2 to 3.14). Want of memory is the only refusal.

mod answer;
mod connack;
mod copies;
mod frame;
mod laws;
mod property;
mod sent;

pub use self::answer::{disconnect, puback, pubcomp, pubrec, pubrel, suback, suback_len, unsuback};
pub use self::connack::{connack_assigned, connack_granted, connack_refused};
pub use self::copies::{
    has_spelling, other_bytes, publish, publish_in, publish_in_len, publish_len, row_in_len,
    row_len, row_other_bytes,
};
pub use self::laws::sizes_stay;
