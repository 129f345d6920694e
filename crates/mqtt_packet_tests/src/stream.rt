//! What no clause of mqtt_packet says: values from outside, and that calls succeed.

mod cut;
mod framer;
