//! A turn of the server over its connections: what they send is given to the broker, and what it answers waits to go out
//! to them (MQTT 5.0, 4.2). Private: `mqtt_serve` runs its turns over sockets.

mod accepting;
mod asking;
mod connection;
mod connections;
mod giving;
mod holding;
mod keeping;
mod laws;
mod line;
mod running;
mod settling;
mod stirring;
mod telling;
mod turn;

pub use self::keeping::{starts_keep_all_whoever_sends, turns_keep_all_whoever_sends};
pub use self::laws::what_a_crash_leaves_of_a_turn;
pub use self::running::{Timer, run_turns};
pub use self::settling::{Had, TURNS_TOGETHER, run_settled_turns, serve_stretch};
pub use self::turn::{Links, READ_LIMIT, TICK_LIMIT, serve_turn};
