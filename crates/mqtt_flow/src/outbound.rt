//! The handshakes of a session (4.3, 4.4, 4.9).

mod answers;
mod change;
mod entry;
mod in_use;
mod known;
mod look;
mod outbound_laws;
mod outflow;
mod plan;
mod pump;
mod queueing;
mod row;
mod still;

pub use self::entry::{Entry, Full, QueueLimits, QueuedCopy, Turn, Way};
pub use self::known::{Known, know, pump_known};
pub use self::look::{
    holder, look_enter, look_expire, look_puback, look_pubcomp, look_pubrec, look_pump, look_resume,
};
pub use self::outbound_laws::{numbers_go_on, outbound_once, pump_in_order};
pub use self::outflow::Outflow;
pub use self::plan::has_room;
pub use self::row::{Entries, QueueView};
