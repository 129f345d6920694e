//! What `mqtt5 replay` writes of a script.
#![tactic(auto)]

mod over_world;
pub mod playing;

pub use mqtt_keep::Keep;
pub use mqtt_rules::Limits;
pub use mqtt_script::{BadLine, BadReason, Played, ReplayFault};
pub use over_world::{replay, replay_at, replay_over};
