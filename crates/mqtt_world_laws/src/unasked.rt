//! Nobody is sent what he did not ask for (MQTT 5.0, 3.3.4, 3.8.4, 4.3.1).

mod laws;

pub use self::laws::{
    each_step_sends_what_was_asked_for, nobody_is_sent_what_he_did_not_ask_for,
    nothing_goes_out_twice_at_once,
};
