//! Conforming ends as code: what a publisher does with its handshakes, and what it sends for them (MQTT 5.0, 4.3.2,
//! 4.3.3, 4.4, 4.9). Private: for the world that runs.

mod fates;
mod handshakes;
mod shakes;

pub use self::fates::{Fate, Finish, Heard};
pub use self::handshakes::Handshakes;
pub use self::shakes::{Assurance, Shake};
