//! The world that runs: conforming ends and the lines between them and the broker (MQTT 5.0, 4.2 to 4.4).

mod back;
mod heard;
mod input;
mod known;
mod line;
mod publisher;
mod receiver;
mod sent;
mod told;
mod wire;

pub use self::back::Back;
pub use self::input::{is_input, is_message, is_wish};
pub use self::line::{Down, Line, Link};
pub use self::publisher::PublisherEnd;
pub use self::receiver::{Entry, ReceiverEnd};
pub use self::sent::Sent;
pub use self::told::{RunFault, Told};
