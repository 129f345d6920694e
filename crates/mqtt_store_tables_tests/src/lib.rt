//! Tests of `mqtt_store_tables` over its public calls (MQTT 5.0, 4.1).
#![tactic(auto)]

#[cfg(test)]
mod first_schema;
#[cfg(test)]
mod messages;
#[cfg(test)]
mod schema;
