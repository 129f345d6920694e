//! What a database of schema 1 keeps of records, and what each change makes of their items (MQTT 5.0, 4.1). Private.

mod laws;
mod member_laws;
mod rows;
mod wishes;

pub use self::laws::change_keeps_order;
pub use self::member_laws::{
    copy_is_put, copy_is_removed, copy_is_set, rows_determine_sessions, session_is_removed,
};
pub use self::rows::{
    columns_are_removed, retained_is_put, retained_is_removed, session_is_put, session_is_set,
};
pub use self::wishes::{
    identifier_is_put, identifier_is_removed, subscription_is_put, subscription_is_removed,
    will_is_put, will_is_removed,
};
