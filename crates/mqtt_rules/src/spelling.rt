//! Laws of what goes out: each packet that the broker sends has a spelling (MQTT 5.0, 2.1, 3.2 to 3.14). Private.

mod laws;

pub use self::laws::{
    brokers_go_on_sending_well, identifiers_stay_two_bytes, what_goes_out_has_a_spelling,
};
