//! Tests of `mqtt_topic::sending` over its public calls (MQTT 5.0, 3.1.2.11.4, 3.1.2.11.5, 3.3.2.3.4).

mod rows;
mod sent;
mod table;
