//! Laws of every run of the world: what is accepted and what becomes of copies, whatever is lost, restarted or
//! stopped (MQTT 5.0, 3.3.4, 4.3, 4.4).

mod run_laws;

pub use self::run_laws::{
    a_world_may_begin, copies_of_qos_0_go_out_at_once, each_copy_enters_and_ends_once,
    every_copy_waits_or_has_ended, every_publication_is_routed, every_run_accepts_once,
    exactly_the_intended_copies_enter,
};
