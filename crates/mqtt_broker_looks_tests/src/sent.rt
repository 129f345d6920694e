//! Tests of mqtt_broker_looks::sent over its public calls.

mod answers;
mod copies;
mod forms;
