//! The laws of each run of the world, exactly-once delivery among them (MQTT 5.0, 4.3, 4.4).
#![tactic(auto)]

pub mod acceptance;
pub mod causes;
pub mod delivery;
pub mod drain_causes;
pub mod drains;
pub mod fitting;
pub mod granting;
pub mod headline;
pub mod headline_in_forms;
pub mod knowing;
pub mod of_calls;
pub mod ordered;
pub mod published;
pub mod reading;
pub mod receiver;
pub mod routing;
pub mod telling;
pub mod unasked;
pub mod unsent;
