//! What a step of the broker looks up: decisions, packets to send, and what is at hand of queued
//! copies (MQTT 5.0, 3, 4).
#![tactic(auto)]

pub mod at_hand;
pub mod decided;
pub mod sent;
