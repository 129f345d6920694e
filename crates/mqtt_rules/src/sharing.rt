//! Laws of what copies and retained messages say: those of one publication say the same (MQTT 5.0, 3.3, 4.1). Private.

mod laws;

pub use self::laws::contents_are_shared;
