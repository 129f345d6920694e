//! Tests of mqtt_keep::lawful over its public call.

mod kept;
mod rules;
