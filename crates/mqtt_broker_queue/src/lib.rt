//! Queues of copies, publications and who subscribes, within a step of the broker (MQTT 5.0, 3.3,
//! 4.3, 4.8).
#![tactic(auto)]

pub mod publications;
pub mod queues;
pub mod subscribers;
