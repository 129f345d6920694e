//! The world that runs: publishers, receivers and strangers round a broker over any store, and the events of a script that
//! happen in it (MQTT 5.0, 4.1 to 4.4).

mod draining;
mod drains;
mod kept;
mod looks;
mod playing;
mod stage;
mod stopping;
mod visits;
mod world;

pub use self::world::World;
