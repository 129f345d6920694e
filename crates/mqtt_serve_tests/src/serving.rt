//! Tests of `mqtt_serve` over its public calls, on files and sockets of this machine (MQTT 5.0, 4.1, 4.2).

mod callers;
mod limits;
mod restarts;
mod runs;
mod time;
