//! An event in which the broker makes several steps comes to events of one step each: the bytes of a stranger, and a
//! stop after a commit (MQTT 5.0, 2.1, 4.1).

mod laws;
mod taken_laws;

pub use self::laws::{
    a_stop_after_is_a_step_and_a_restart, an_event_is_its_steps, bytes_come_packet_by_packet,
    every_event_comes_to_steps, strangers_of_a_name_are_alike,
};
pub use self::taken_laws::{ends_stay_sound, packets_of_ends_are_taken};
