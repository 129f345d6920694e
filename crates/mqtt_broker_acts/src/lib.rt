//! What a step of the broker does for a client: CONNECT, SUBSCRIBE, the clock and the end of a
//! connection (MQTT 5.0, 3, 4).
#![tactic(auto)]

pub mod calls;
pub mod clock;
pub mod closing;
pub mod connecting;
pub mod subscribing;
