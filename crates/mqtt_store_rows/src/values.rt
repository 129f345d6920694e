//! What a value says, and a row of each table that both schemas have; sessions and what they have (MQTT 5.0, 4.1).

mod block;
mod lists;
mod meta;
mod phase;
mod session;
mod sessions;
mod stored;
mod subscription;
mod value;
mod will;

pub(crate) use self::block::block_of;
pub use self::block::passed;
pub use self::lists::{all_of, front_of, part_of};
pub use self::meta::{Counters, counters_of, number_in};
pub use self::phase::{id_of, phase_of};
pub use self::session::columns_of;
pub use self::sessions::{PartRows, sessions_of};
pub use self::stored::Stored;
pub use self::subscription::subscription_of;
pub use self::value::{blob, counted, flag, is_number, is_short, kept, qos, text, value_at};
pub use self::will::will_of;
