//! The replay of a script on a world: each of its lines is an event, which happens there, and what is told of it is
//! written (ours). Private: for the program that runs scripts.

mod ends;
mod playing;
mod replaying;
mod runs;
mod script;
mod told;

pub use self::replaying::replay;
pub use self::runs::Runs;
pub use self::told::{push_report, push_told};
