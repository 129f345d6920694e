//! The engine of the broker: it is opened over what a store holds, each call is a step of the rules, and the store holds what
//! the step leaves; what waiting copies say is in the store alone (MQTT 5.0, 3.3, 4.1). Private: bytes are cut into packets by
//! its caller.

mod calling;
mod closing;
mod committing;
mod copies;
mod engine;
mod finishing;
mod holding;
mod identifiers;
mod opening;
mod outcome;
mod parts;
mod pumping;
mod settling;

pub(crate) use self::copies::copies_on;
pub use self::engine::Engine;
pub use self::opening::open;
pub use self::outcome::Outcome;
