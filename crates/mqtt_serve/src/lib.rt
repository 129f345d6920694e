//! What `mqtt5 serve` does: turns over connections, its database, and the sockets.
#![tactic(auto)]

mod causes;
mod database;
mod gathered;
mod journal;
mod serving;
mod turns;

pub use causes::{Cause, CauseLine, SocketCause, StoreCause};
pub use database::{MakeFault, PAGE_SIZE, make_database, make_over};
pub use gathered::{GATHERED_LIMIT, Gathered};
pub use journal::{
    Bounds, Call, CleanStart, Client, Close, CopyEvent, CopyLoss, End, FullQueue, Journal,
    LineEvent, Loss, Peer, Present, Quiet, ServerEvent, ServerLog, SessionCount, SessionEnd,
    SessionEvent, Terms, Traffic, WhenFull, WillCause,
};
pub use mqtt_link::{Commit, ServeFault};
pub use mqtt_rules::Capacity;
pub use serving::{SteadyClock, serve, serve_over};
pub use sqlite::{Start, Unknown};
pub use turns::{
    Had, Links, READ_LIMIT, TICK_LIMIT, TURNS_TOGETHER, Timer, run_settled_turns, run_turns,
    serve_stretch, serve_turn,
};
