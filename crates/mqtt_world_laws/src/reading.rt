//! Laws of what the broker reads: in every run each packet is lawful (MQTT 5.0, 1.5.4, 2.1, 2.2.1).

mod laws;

pub use self::laws::{
    each_packet_that_is_read_is_lawful, every_event_goes_well, what_is_under_way_is_taken,
};
