//! Tests of `mqtt_flow` over its public calls (MQTT 5.0, 4.3, 4.4, 4.9).
#![tactic(auto)]

#[cfg(test)]
mod handshakes;
#[cfg(test)]
mod ring;
