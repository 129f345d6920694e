//! What serves schema 1 alone: the records that a database of it has and keeps, and how it becomes one of schema 2 that
//! keeps the same (MQTT 5.0, 4.1).

mod filling;
mod found;
mod laws;
mod loading;
mod migration;
mod reading;
mod refusing;
mod second;

pub use self::found::{found_is_kept, kept_is_found, rows_are_of_one};
pub use self::laws::{database_has_one, puts_make_records};
pub(crate) use self::loading::load_first;
pub use self::migration::migrate;
pub use self::reading::records_in;
pub use self::refusing::first_records_or_refusal;
