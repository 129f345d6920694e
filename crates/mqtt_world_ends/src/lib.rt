//! The ends of the world: publishers, receivers and strangers (MQTT 5.0, 4.3, 4.4).
#![tactic(auto)]

pub mod handshakes;
pub mod peers;
pub mod strangers;
