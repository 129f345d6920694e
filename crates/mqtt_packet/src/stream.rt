//! MQTT 5.0 control packets, and the cut of a stream of bytes into them (2.1, 3).

mod framer;
mod front;
mod laws;
mod store;

pub use self::framer::Framer;
pub use self::laws::{any_pieces, first_spelled, joined_cut, moments, one_cut};
