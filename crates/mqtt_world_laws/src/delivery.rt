//! Laws of every run of the world, for what receivers are handed (MQTT 5.0, 4.3, 4.4).

mod broker_laws;
mod connect_laws;
mod drain_laws;
mod receiver_laws;
mod run_laws;
mod script_laws;
mod standing_laws;
mod taking_laws;
mod whole_laws;
mod wish_laws;

pub use self::broker_laws::{
    a_line_without_session_has_sent_nothing, identifiers_in_flight_stay_unique,
};
pub use self::connect_laws::a_connect_leaves_a_receiver_standing;
pub use self::drain_laws::{a_drain_takes_its_copies, copies_end_in_a_drain_by_a_cause};
pub use self::receiver_laws::{
    a_receiver_that_stands_was_handed_its_copies_once, every_receiver_stands_in_a_new_world,
};
pub use self::run_laws::{
    a_world_may_begin_untouched, copies_are_handed_over_as_they_entered, every_drain_ends,
    every_run_hands_over_once, what_is_acknowledged_was_read,
};
pub use self::script_laws::every_script_delivers_exactly_once;
pub use self::standing_laws::{
    a_lost_line_leaves_a_receiver_standing, a_new_line_leaves_a_receiver_standing,
    a_restart_leaves_a_receiver_standing, a_stop_after_the_commit_leaves_a_receiver_standing,
    a_tick_leaves_a_receiver_standing, an_answer_leaves_a_receiver_standing,
    sending_leaves_a_receiver_standing, what_ends_do_leaves_a_receiver_standing,
    what_is_asked_for_others_leaves_a_receiver_standing,
};
pub use self::taking_laws::its_line_takes_what_its_connect_says;
pub use self::whole_laws::every_receiver_was_handed_its_copies_once;
pub use self::wish_laws::{
    a_subscribe_leaves_a_receiver_standing, retained_messages_stay_of_different_publications,
};
