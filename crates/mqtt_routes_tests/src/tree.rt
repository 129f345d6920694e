//! Tests of `mqtt_routes::tree` over its public calls (MQTT 5.0, 4.7).

mod deep;
mod faults;
mod rows;
mod shelf;
