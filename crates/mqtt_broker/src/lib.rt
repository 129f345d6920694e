//! The engine: a broker over a store (MQTT 5.0, 3, 4).
#![tactic(auto)]

pub mod alike;
mod engine;
pub mod reopening;
pub mod stored;

pub use engine::{
    Asked, Engine, Framers, a_call_over_a_settled_store, no_more_lines_stand_than_are_asked_for,
    streams_may_come_in_any_pieces,
};
pub use mqtt_base::CopyId;
pub use mqtt_broker_step::EngineError;
pub use mqtt_keep::{Keep, KeepError};
pub use mqtt_packet::Packet;
pub use mqtt_rules::{Capacity, Limits};
pub use stored::Outcome;
