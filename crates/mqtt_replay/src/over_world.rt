//! The replay of a script on a world that runs, over any store: its text is that of a run of the definitions' world (MQTT 5.0,
//! 4.1 to 4.4).

mod playing;
mod program;
mod replaying;

pub use self::program::replay_at;
pub use self::replaying::{replay, replay_over};
