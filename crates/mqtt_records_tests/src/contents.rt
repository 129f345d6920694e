//! Tests of mqtt_keep::contents over its public call.

mod alike;
mod kept;
