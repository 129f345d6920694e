//! Laws of copies that fit with their whole topics: they go out, and a pump of them goes by whole topics, whatever the client was
//! told (MQTT 5.0, 3.1.2.11.4, 3.3.2.3.4). Private.

mod laws;

pub use self::laws::{a_pump_in_forms_is_a_pump, what_fits_whole_goes_out};
