//! What a row of each table of schema 2 of the SQL store says, and the records that the rows of all tables give (MQTT 5.0, 4.1). Private.

mod identifiers;
mod kept;
mod laws;
mod message;
mod messages;
mod queued;
mod referred;
mod refers;
mod tables;
mod taken;

pub use self::identifiers::identifiers_of;
pub use self::kept::retained_of;
pub use self::laws::{messages_are_few, rows_give_one};
pub use self::message::{MESSAGE_LIMIT, Message, message_of};
pub use self::messages::Messages;
pub use self::queued::copy_of;
pub use self::referred::{are_referred, is_among};
pub use self::refers::{Refers, all_with, content_at, part_with};
pub use self::tables::{Tables, heads_of};
