//! The laws that what goes out to a client means to it what was meant, by the aliases that it was told (MQTT 5.0, 3.3.2.3.4).

mod laws;

pub use self::laws::{what_goes_out_means_what_was_meant, who_takes_no_alias_is_told_none};
