//! The fifteen control packets: what they are, their spellings and their laws (2, 3.1 to 3.15).

mod ack;
mod connack;
mod frame;
mod head;
mod judged;
mod laws;
mod notice;
mod packet;
mod publish;
mod suback;
mod tail;

pub use self::ack::{Ack, AckRef};
pub use self::connack::{Connack, ConnackRef};
pub use self::frame::{decode, encode, encode_into, lawful, look_at, spelled_len};
pub use self::head::{Head, head_read};
pub use self::laws::{one_packet, round_trip};
pub use self::notice::{Notice, NoticeRef};
pub use self::packet::{Packet, PacketRef};
pub use self::publish::{Delivery, Publish, PublishRef};
pub use self::suback::{Suback, SubackRef};
