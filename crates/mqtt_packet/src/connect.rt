//! CONNECT: what it is, its spelling and its laws (3.1).

mod connect;
mod connect_flags;

pub use self::connect::{Connect, ConnectRef, Will, WillRef, connect_read, is_version_5};
