//! The records that a database of schema 2 has, read through a connection (4.1).

mod laws;
mod loading;
mod opening;
mod reading;
mod refusing;

pub use self::laws::second_database_has_one;
pub use self::loading::records_in;
pub use self::opening::begin_second;
pub use self::reading::{AddedTable, rows_of_added};
pub use self::refusing::records_or_refusal;
pub(crate) use self::refusing::refusal_of;
