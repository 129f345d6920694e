//! What copies in queues say, read back from a database of schema 2 (4.1, 4.4).

mod content;
mod laws;
mod reading;

pub use self::laws::tables_tell_what_copies_say;
pub use self::reading::contents_in;
