//! Whether a store may be opened with what it has: the rules of records that no type keeps (4.1).

mod client;
mod copy;
mod laws;
mod message;
mod queue;
mod records;
mod retained;
mod rows;
mod session;
mod subscription;

pub use self::laws::nothing_is_lawful;
pub use self::records::is_lawful;
