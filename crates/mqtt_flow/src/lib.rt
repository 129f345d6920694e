//! The handshakes of QoS 1 and 2 of one session, inbound and outbound (MQTT 5.0, 4.3, 4.4, 4.9).
#![tactic(auto)]

mod inbound;
mod outbound;
mod ring;

pub use inbound::{
    FlowFault, Inflow, Published, ReleaseAnswer, inbound_once, lowest_free, own_identifier_alone,
    would_publish, would_release,
};
pub use outbound::{
    Entries, Entry, Full, Known, Outflow, QueueLimits, QueueView, QueuedCopy, Turn, Way, has_room,
    holder, know, look_enter, look_expire, look_puback, look_pubcomp, look_pubrec, look_pump,
    look_resume, numbers_go_on, outbound_once, pump_in_order, pump_known,
};
pub use ring::{
    AT_HAND_LIMIT, AtHand, at_hand_is_what_is_told, others_stay_at_hand, stays_consecutive,
};
