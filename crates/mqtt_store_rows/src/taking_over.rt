//! What serves schema 1 alone: the rows of its tables of copies and of retained messages, and the records that the rows
//! of all its tables give (MQTT 5.0, 4.1).

mod block;
mod copy;
mod laws;
mod retained;
mod tables;

pub use self::copy::copy_of;
pub use self::laws::rows_give_one;
pub use self::retained::retained_of;
pub use self::tables::{Tables, lawful_records_of, records_of};
