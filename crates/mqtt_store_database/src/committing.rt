//! The changes of a step in a database of schema 2, all of them or none (MQTT 5.0, 4.1). Private.

mod change;
mod columns;
mod commit;
mod laws;
mod parts;
mod together;

pub use self::change::table_change_of;
pub use self::commit::{commit_changes, write_change};
pub use self::laws::{
    committed_step_keeps_rows, settled_rows_are_in_order, step_keeps_rows, step_keeps_the_list,
};
pub use self::parts::{Parts, parts_of};
