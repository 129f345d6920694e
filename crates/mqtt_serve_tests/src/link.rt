//! Tests of `mqtt_link` over its public calls (MQTT 5.0, 4.2).

mod memory;
mod sockets;
mod waiting;
