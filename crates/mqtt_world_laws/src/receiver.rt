//! Laws of what receivers are handed: what a receiver and its session see of the world is an outbound hop
//! (MQTT 5.0, 4.3, 4.4).

mod apart_laws;
mod call_laws;
mod connect_laws;
mod connect_round_laws;
mod copy_laws;
mod doing_laws;
mod drain_laws;
mod late_laws;
mod laws;
mod other_laws;
mod own_laws;
mod ready_laws;
mod restart_laws;
mod round_laws;
mod served_laws;
mod world_round_laws;

pub use self::apart_laws::copies_that_enter_are_told_apart;
pub use self::call_laws::{
    a_clean_start_is_a_step_of_the_hop, a_new_session_is_a_step_of_the_hop,
    a_resumed_session_is_a_step_of_the_hop, answers_on_the_line_given_up_are_steps_of_the_hop,
    sending_is_a_step_of_the_hop,
};
pub use self::connect_laws::a_connect_on_the_line_given_up_is_a_step_of_the_hop;
pub use self::connect_round_laws::a_drain_with_a_connect_ends;
pub use self::copy_laws::{
    a_copy_that_enters_is_a_step_of_the_hop, copies_that_expire_are_steps_of_the_hop,
};
pub use self::doing_laws::{
    own_doings_leave_a_receiver_awaiting, own_doings_leave_a_receiver_in_step,
};
pub use self::drain_laws::a_script_with_drains_is_a_run;
pub use self::late_laws::{
    a_connect_on_the_line_given_up_puts_a_receiver_in_step,
    a_line_without_session_leaves_a_receiver_as_it_is, a_line_without_session_stays_as_it_is,
    a_subscribe_on_the_line_given_up_leaves_a_receiver_in_step,
    calls_of_others_leave_a_receiver_awaiting,
};
pub use self::laws::{
    a_lost_line_is_a_step_of_the_hop, a_run_of_the_hop_hands_over_once,
    answers_of_a_receiver_are_steps_of_the_hop, own_doings_of_a_receiver_are_steps_of_the_hop,
};
pub use self::other_laws::deeds_of_others_are_unseen;
pub use self::own_laws::{
    a_connect_puts_a_receiver_in_step, a_connected_receiver_listens,
    a_subscribe_leaves_a_receiver_in_step, answers_leave_a_receiver_in_step,
    calls_of_others_leave_a_receiver_in_step, its_line_leaves_a_receiver_in_step,
};
pub use self::ready_laws::{
    a_connected_session_may_receive_more, a_receivers_session_may_receive_more,
};
pub use self::restart_laws::{
    a_restart_is_a_step_of_the_receivers_hop,
    a_stop_after_the_commit_is_a_step_of_the_receivers_hop, a_stop_before_the_commit_is_a_restart,
    a_tidy_broker_stays_tidy,
};
pub use self::round_laws::{
    a_drain_of_a_hop_ends, a_round_takes_a_copy_further, what_is_due_is_under_way,
};
pub use self::served_laws::{
    a_late_connect_is_a_step_of_the_hop, calls_of_others_are_steps_of_the_hop,
};
pub use self::world_round_laws::{
    a_drain_ends, a_drain_with_a_subscribe_ends, a_round_of_a_drain_is_one_of_the_hop,
};
