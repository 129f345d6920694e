//! What is written of a change in both schemas: the columns of a row that is put, and which changes of a step are written
//! (MQTT 5.0, 4.1). Private.

mod columns;
mod ending;

pub use self::columns::{
    cause_n, cause_number, cause_text, columns_of, counter_name, packet_identifier, phase_number,
    release_order, session_columns, subscription_columns, will_columns,
};
pub use self::ending::{Known, goes_by, known_behind};
