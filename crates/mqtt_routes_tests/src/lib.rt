//! Tests of `mqtt_topic` and `mqtt_routes` over their public calls (MQTT 5.0, 3.3, 4.7, 4.8).
#![tactic(auto)]

#[cfg(test)]
mod routing;
#[cfg(test)]
mod sending;
#[cfg(test)]
mod topics;
#[cfg(test)]
mod tree;
