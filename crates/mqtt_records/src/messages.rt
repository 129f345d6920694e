//! What is kept of messages: content, Will, copy, retained message, a queue's row (3.1.3, 3.3, 4.1).

mod content;
mod fault;
mod held;
mod laws;
mod lent;
mod message;
mod parts;
mod properties;
mod queue;
mod sizes;

pub use self::content::CopyContent;
pub use self::fault::CopyFault;
pub use self::laws::{slim_rows_are_as_long, slim_rows_are_filled_again};
pub use self::lent::{ContentRef, CopyRef};
pub use self::message::{Content, MessageCopy, RetainedMessage, SubscriptionIdentifiers, Will};
pub use self::parts::CopyPart;
pub use self::properties::{PassedOn, number_in};
pub use self::queue::CopyRow;
pub use self::sizes::sent_len;
