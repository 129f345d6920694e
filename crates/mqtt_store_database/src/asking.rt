//! The rows of a database, read through a connection (4.1).

mod connection;
mod fault;
mod reading;

pub use self::connection::probe;
pub use self::fault::fault_of;
pub use self::reading::rows_of;
