//! The world that runs scripts over a broker, and the laws of each script (MQTT 5.0, 4.3, 4.4).
#![tactic(auto)]

pub mod clients;
pub mod reopening;
pub mod scene;
pub mod script_drains;
pub mod script_laws;
mod world;

pub use mqtt_keep::Keep;
pub use mqtt_rules::{Capacity, Limits};
pub use mqtt_script::{Asking, Event};
pub use mqtt_world_ends::peers::{RunFault, Told};
pub use scene::each_packet_is_read_as_it_was_sent;
pub use world::World;
