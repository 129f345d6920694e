//! The statements of schema 2 on messages, copies and retained messages, with what each makes of the rows (MQTT 5.0, 4.1). Private.

mod change;
mod kept;
mod kinds;
mod laws;
mod messages;
mod numbers;
mod queued;
mod referring;
mod sessions;
mod sizes;
mod sweeps;

pub use self::change::{TableChange, change_knowing, change_tables};
pub use self::kept::{KeptColumns, pub_of_kept, pub_of_topic, put_kept, remove_kept};
pub use self::laws::{message_of_a_copy_stands, no_message_is_left_over};
pub use self::messages::{MessageColumns, put_message, sweep_message};
pub use self::numbers::{whole, whole_or_none};
pub use self::queued::{QueuedColumns, pub_of_queued, put_queued, remove_queued, set_queued};
pub use self::sessions::{pubs_of_queue, remove_session};
pub use self::sizes::{fits, is_sized, is_sized_copy};
