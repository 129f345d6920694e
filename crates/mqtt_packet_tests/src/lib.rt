//! Tests of `mqtt_base`, `mqtt_props` and `mqtt_packet` over their public calls (MQTT 5.0, 1.5,
//! 2, 3).
#![tactic(auto)]

#[cfg(test)]
mod codec;
#[cfg(test)]
mod props;
#[cfg(test)]
mod stream;
#[cfg(test)]
mod values;
