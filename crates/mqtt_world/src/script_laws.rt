//! What a run of a script is, event by event, and the laws of every such run (MQTT 5.0, 2.1, 4.1 to 4.4).

mod drain_laws;
mod laws;
mod piece_laws;
mod script_laws;
mod turn_laws;

pub use self::drain_laws::{
    a_drain_can_happen, a_drain_is_by_one_choice, drains_of_a_script_end,
    rounds_follow_one_another, what_a_drain_is_made_of_is_turns,
};
pub use self::laws::{a_script_runs_by_turns, scripts_follow_one_another, whatever_a_script_does};
pub use self::piece_laws::{a_piece_is_one_turn, bytes_happen_piece_by_piece};
pub use self::script_laws::{
    ends_that_come_first_are_made_anew, scripts_deliver_exactly_once, strangers_hold_no_packet,
    what_is_in_front_is_taken,
};
pub use self::turn_laws::{
    a_stop_before_is_a_restart, a_turn_tells_what_its_event_does, an_event_happens_by_turns,
    no_end_hears_of_a_line,
};
