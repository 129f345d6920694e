//! What a broker stores: messages, copies in queues, subscriptions and sessions as rows, and their
//! changes (MQTT 5.0, 3.3, 4.1).
#![tactic(auto)]

mod lists;
mod messages;
mod state;

pub use lists::{
    Boxed, CloneRow, Editable, Fillable, Named, Parted, Row, Rows, Shareable, Slimmable,
    all_differ, are_distinct, are_named_apart, newest_comes_last, rows_are_determined,
    rows_are_found,
};
pub use messages::{
    Content, ContentRef, CopyContent, CopyFault, CopyPart, CopyRef, CopyRow, MessageCopy, PassedOn,
    RetainedMessage, SubscriptionIdentifiers, Will, number_in, sent_len, slim_rows_are_as_long,
    slim_rows_are_filled_again,
};
pub use state::{
    Change, Columns, Counter, Records, Session, SessionPart, SessionRow, Subscription, all_pass_on,
    clone_all, content_of, contents_in, ended_session_leaves_nothing, numbers_never_fall,
    records_pass_on,
};
