//! Why the server ended early, in full, and the line that tells it (ours).

mod cause;
mod looks;
mod reports;
mod telling;

pub use self::cause::{Cause, SocketCause, StoreCause};
pub(crate) use self::looks::why_not;
pub(crate) use self::reports::{of_database, of_engine, of_load, of_socket, of_tally};
pub use self::telling::CauseLine;
