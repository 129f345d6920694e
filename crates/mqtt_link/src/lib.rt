//! The edge of the broker: connections whose calls never wait, and the bytes that wait to go out (MQTT 5.0, 4.2).
#![tactic(auto)]

mod commit;
mod held_back;
mod link;
mod poll_link;
mod serve_fault;
mod sockets;
mod waiting;

pub use commit::Commit;
pub use held_back::{HeldBack, HeldPeer};
pub use link::{Got, Link};
pub use poll_link::PollLink;
pub use serve_fault::ServeFault;
pub use sockets::got;
pub use waiting::{WAITING_LIMIT, Waiting, WaitingFault};
