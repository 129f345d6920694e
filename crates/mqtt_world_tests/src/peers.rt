//! Conforming ends on lines without a broker: what they send for what they read (MQTT 5.0, 4.3).

mod ends;
mod packets;
