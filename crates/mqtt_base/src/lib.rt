//! The values that packets are made of (MQTT 5.0, 1.5 and 2.4).
#![tactic(auto)]

mod blob;
mod escaped;
mod escaped_laws;
mod fault;
mod kind;
mod laws;
mod limits;
mod number;
mod pair;
mod reason;
mod session;
mod text;
mod varint;

pub use blob::{Blob, blob_push, blob_read};
pub use escaped::Escaped;
pub use escaped_laws::one_word;
pub use fault::ReadFault;
pub use kind::Kind;
pub use laws::{fewest_bytes, one_spelling, text_is_characters};
pub use limits::{
    ALIAS_LIMIT, CLIENT_LIMIT, CONNECT_TIME, LAST_NUMBER, LINE_LIMIT, LINES_UNASKED, OPEN_LIMIT,
    PACKET_LIMIT, PUMP_LIMIT, QUEUE_LIMIT, RETAINED_LIMIT, ROW_LIMIT, SESSION_LIMIT,
    SUBSCRIPTION_LIMIT, VARINT_LIMIT,
};
pub use number::{u8_read, u16_push, u16_read, u32_read};
pub use pair::Pair;
pub use reason::Reason;
pub use session::{Cause, CopyId, Ending, Phase, Qos, RetainHandling, SubscriptionOptions};
pub use text::{Text, text_read};
pub use varint::{varint_len, varint_push, varint_read, varint_write};
