//! What happens while the server runs, told to whoever listens (ours).

mod away;
mod call;
mod came;
mod copy_event;
mod copy_log;
mod counting;
mod hearing;
mod line_event;
mod line_log;
mod packets;
mod seldom;
mod server_event;
mod server_log;
mod session_event;
mod session_log;
mod stamped;
mod tables;

pub use self::call::{Call, Loss};
pub use self::copy_event::{CopyEvent, CopyLoss, FullQueue};
pub use self::hearing::{Journal, Quiet};
pub use self::line_event::{CleanStart, Client, Close, LineEvent, Peer, Present, Terms};
pub use self::server_event::{Bounds, End, ServerEvent, SessionCount, Traffic, WhenFull};
pub use self::server_log::ServerLog;
pub use self::session_event::{SessionEnd, SessionEvent, WillCause};
