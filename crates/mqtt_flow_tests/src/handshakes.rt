//! Tests of the handshakes of a session, over the public calls of mqtt_flow.

mod faults;
mod inbound;
mod outbound;
