//! Tests of mqtt_broker_looks::decided over its public calls.

mod clients;
mod looks;
mod messages;
mod sessions;
