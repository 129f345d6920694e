//! Schema 2 of the SQL store (4.1): a publication's bytes once.

mod creation;
mod found;
mod tables;

pub use self::creation::{Added, add_tables, create_second};
pub use self::found::{FoundStore, found_store};
pub use self::tables::{Making, is_second};
