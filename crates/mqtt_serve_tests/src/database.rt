//! Tests of `mqtt_serve::database` over its public calls, on files in memory and of this machine (MQTT 5.0, 4.1).

mod broken;
mod paths;
