//! All ends of a world by their names (MQTT 5.0, 4.2 to 4.4).

mod clients;
mod lines;
mod looks;
mod publishers;
mod receivers;
mod telling;

pub use self::clients::Clients;
