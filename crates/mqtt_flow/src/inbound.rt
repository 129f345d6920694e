//! The inbound handshake of a session, and lists of packet identifiers (2.2.1, 4.3.2, 4.3.3, 4.4, 4.9).

mod fault;
mod inflow;
mod laws;
mod lowest;
mod open_list;

pub use self::fault::FlowFault;
pub use self::inflow::{Inflow, Published, ReleaseAnswer};
pub use self::laws::{inbound_once, own_identifier_alone};
pub use self::lowest::lowest_free;
pub use self::open_list::{would_publish, would_release};
