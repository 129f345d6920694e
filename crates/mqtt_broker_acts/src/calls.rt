//! A call on a step from its beginning to its end: each packet of a connected client, first packets, faults, losses, turns of
//! sending and of the clock; and what holds between calls (MQTT 5.0, 2.2.1, 3.1 to 3.14, 4.1, 4.6, 4.13). Private.

mod answers;
mod calling;
mod connecting;
mod first;
mod laws;
mod leaving;
mod losing;
mod publishing;
mod pumping;
mod quiet;
mod refusing;
mod ticking;

pub use self::calling::input;
pub use self::first::first_at;
pub use self::laws::{limits_stay_kept, sound_brokers_are_ready, sound_brokers_stay_sound};
pub use self::losing::lost_at;
pub use self::pumping::send_at;
pub use self::refusing::fault_at;
pub use self::ticking::tick_at;
