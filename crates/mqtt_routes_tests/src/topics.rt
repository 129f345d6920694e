//! Tests of `mqtt_topic` over its public calls (MQTT 5.0, 3.3.2.3.4, 4.7, 4.8.2).

mod aliases;
mod faults;
mod filters;
mod levels;
mod matching;
mod names;
mod texts;
