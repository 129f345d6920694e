//! The broker: bytes of connections in, the rules of MQTT 5.0 on them, and the store told of each step before it is
//! answered (MQTT 5.0, 2.1, 4.1).

mod asked;
mod asking;
mod engine;
mod framers;
mod framing;
mod held;
mod holding;
mod laws;
mod looks;
mod opening;

pub use self::asked::Asked;
pub use self::engine::Engine;
pub use self::framers::Framers;
pub use self::laws::{
    a_call_over_a_settled_store, no_more_lines_stand_than_are_asked_for,
    streams_may_come_in_any_pieces,
};
