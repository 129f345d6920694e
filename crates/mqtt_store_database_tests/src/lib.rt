//! Tests of `mqtt_store_rows` and `mqtt_store_database` over their public calls (MQTT 5.0, 4.1).
#![tactic(auto)]

#[cfg(test)]
mod committing;
#[cfg(test)]
mod first_schema;
#[cfg(test)]
mod gathering;
#[cfg(test)]
mod loading;
#[cfg(test)]
mod reading;
#[cfg(test)]
mod rows;
#[cfg(test)]
mod taking_over;
#[cfg(test)]
mod telling;
#[cfg(test)]
mod values;
