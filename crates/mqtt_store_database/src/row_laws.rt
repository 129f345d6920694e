//! What a database of schema 2 keeps of records, and that the statements of a change keep it (MQTT 5.0, 4.1). Private.

mod contents;
mod copies;
mod laws;
mod sessions;
mod table_changes;

pub use self::contents::{
    dropped_messages_leave_messages, rows_share_contents, sweeps_leave_messages,
};
pub use self::copies::{
    copy_that_is_put_keeps_rows, copy_that_is_removed_keeps_rows, copy_that_is_set_keeps_rows,
    message_that_is_removed_keeps_rows, message_that_is_retained_keeps_rows,
    session_that_is_removed_keeps_rows,
};
pub use self::laws::{new_second_keeps_nothing, rows_that_are_set_stand};
pub use self::sessions::{
    identifier_that_is_put_keeps_rows, identifier_that_is_removed_keeps_rows,
    number_that_is_set_keeps_rows, session_that_is_put_keeps_rows,
    subscription_that_is_put_keeps_rows, subscription_that_is_removed_keeps_rows,
    will_that_is_put_keeps_rows, will_that_is_removed_keeps_rows,
};
pub use self::table_changes::{asked_rows_stand, table_change_keeps_rows, table_changes_keep_rows};
