//! The packets of MQTT 5.0: their values, their spelling, and the cut of a stream of bytes into
//! them (2, 3.1 to 3.15).
#![tactic(auto)]

mod codec;
mod connect;
mod parts;
mod stream;
mod subscribe;

pub use codec::{
    Ack, AckRef, Connack, ConnackRef, Delivery, Head, Notice, NoticeRef, Packet, PacketRef,
    Publish, PublishRef, Suback, SubackRef, decode, encode, encode_into, head_read, lawful,
    look_at, one_packet, round_trip, spelled_len,
};
pub use connect::{Connect, ConnectRef, Will, WillRef, connect_read, is_version_5};
pub use parts::{Fault, both, qos_of, stands};
pub use stream::{Framer, any_pieces, first_spelled, joined_cut, moments, one_cut};
pub use subscribe::{
    Filters, FiltersRef, Subscribe, SubscribeRef, SubscriptionRef, Subscriptions, SubscriptionsRef,
    Unsubscribe, UnsubscribeRef, options_read, subscribe_read, unsubscribe_read,
};
