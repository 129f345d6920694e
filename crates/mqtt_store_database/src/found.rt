//! What a load of the SQL store finds in schema 2 is what the database keeps (MQTT 5.0, 4.1). Private.

mod laws;

pub use self::laws::{
    found_in_second_is_kept, kept_in_second_is_found, rows_of_second_are_of_one,
    schemas_are_told_apart,
};
