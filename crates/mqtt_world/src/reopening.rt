//! Laws of what a broker wrote: exactly-once delivery goes on from it (MQTT 5.0, 2.2.1, 3.3.1.3, 4.1).

mod laws;

pub use self::laws::{
    a_world_may_begin_on_what_a_broker_wrote, what_a_broker_left_has_identifiers_of_two_bytes,
    what_a_broker_left_names_its_topics, what_a_broker_wrote_is_told_apart,
};
