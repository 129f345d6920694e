//! The empty database that a server makes at a path where none stands, with pages of 1,024 bytes (MQTT 5.0, 4.1).

mod fault;
mod making;
mod path;

pub use self::fault::MakeFault;
pub use self::making::{PAGE_SIZE, make_over};
pub use self::path::make_database;
