//! The broker over a database on disk and a listening socket, in turns and one thread (MQTT 5.0, 4.2).

mod clock;
mod serving;
mod store;

pub use self::clock::SteadyClock;
pub use self::serving::{serve, serve_over};
