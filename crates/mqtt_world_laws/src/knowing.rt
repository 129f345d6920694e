//! The laws that what goes out to ends of the world means to them what is meant, however many topic aliases each takes
//! (MQTT 5.0, 3.1.2.11.5, 3.3.2.3.4).

mod laws;

pub use self::laws::{
    ends_know_what_they_were_told, ends_read_what_was_meant, what_means_a_packet_is_read_as_it,
};
