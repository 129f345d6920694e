//! Rows in the order of their keys: the lists that records are made of.

mod distinct;
mod front;
mod laws;
mod row;
mod rows;

pub use self::distinct::{all_differ, are_distinct, are_named_apart};
pub use self::laws::{newest_comes_last, rows_are_determined, rows_are_found};
pub use self::row::{
    Boxed, CloneRow, Editable, Fillable, Named, Parted, Row, Shareable, Slimmable,
};
pub use self::rows::Rows;
