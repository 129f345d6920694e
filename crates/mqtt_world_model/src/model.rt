//! The world of a broker, its ends and their lines, and the laws of every run of it (MQTT 5.0, 4.3, 4.4).

mod laws;
mod seat_laws;

pub use self::laws::{
    a_connected_session_is_its_own, a_restart_is_a_step_of_the_hop, a_run_of_the_hop_accepts_once,
    own_doings_are_steps_of_the_hop, own_packets_are_steps_of_the_hop,
    packets_of_the_line_given_up_are_steps_of_the_hop, steps_of_others_are_unseen,
};
pub use self::seat_laws::{
    a_session_that_began_has_a_place, every_call_is_some_steps_of_the_hop,
    every_doing_is_some_steps_of_the_hop,
};
