//! Tests of `mqtt_serve::turns` over its public calls: turns over clients in memory and at sockets (MQTT 5.0, 4.2).

mod apart;
mod brisk;
mod clients;
mod course;
mod cuts;
mod failing;
mod full;
mod groups;
mod holding;
mod journal;
mod order;
mod settled;
mod slow;
mod sockets;
mod stopping;
mod stretches;
mod turns;
mod want;
