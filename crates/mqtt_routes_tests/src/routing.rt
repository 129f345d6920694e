//! Tests of `mqtt_routes` over its public calls (MQTT 5.0, 3.3.1.3, 3.3.4, 4.8.2).

mod agrees;
mod bed;
mod deep;
mod faults;
mod retained;
mod routing;
mod subscribing;
mod turns;
