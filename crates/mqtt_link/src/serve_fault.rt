//! Why the server ended early (ours).
use thiserror::Error;

/// Why the server ended early. Numbers 1 to 4 are those of the other commands.
#[derive(Clone, Copy, Debug, PartialEq, Eq, Error)]
pub enum ServeFault {
    /// 2: a write of its lines failed.
    #[error("a write failed")]
    Write = 2,
    /// 3: want of memory.
    #[error("want of memory")]
    Memory = 3,
    /// 4: the database did not open or load, or failed; or a number is spent.
    #[error("the store failed")]
    Store = 4,
    /// 5: the socket did not open.
    #[error("the socket failed")]
    Socket = 5,
}
