//! A load of a database of the store, of schema 1 or 2 (4.1).

mod laws;
mod load;

pub use self::laws::{database_keeps_one, load_finds_what_was_written, saved_records_are_found};
pub use self::load::load_from;
