//! Further copies of a publication in schema 2, four of which one statement puts (MQTT 5.0, 4.1). Private.

mod together;

pub use self::together::{insert_four, push_copy};
