//! Tests of `mqtt_broker_looks` over its public calls (MQTT 5.0, 3, 4).
#![tactic(auto)]

#[cfg(test)]
mod at_hand;
#[cfg(test)]
mod decided;
#[cfg(test)]
mod sent;
