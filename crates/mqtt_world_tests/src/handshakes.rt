//! A publisher's handshakes as they go (MQTT 5.0, 4.3, 4.4).

mod handshakes;
