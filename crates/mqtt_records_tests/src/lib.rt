//! Tests of `mqtt_records` and `mqtt_keep` over their public calls (MQTT 5.0, 4.1).
#![tactic(auto)]

#[cfg(test)]
mod contents;
#[cfg(test)]
mod keeping;
#[cfg(test)]
mod lawful;
