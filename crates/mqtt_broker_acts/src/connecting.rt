//! CONNECT, as the rules have it, over the tables of a step (MQTT 5.0, 3.1, 3.2).

mod beginning;
mod connecting;
mod greeting;
mod joining;
mod laws;
mod preparing;
mod refusing;
mod repeating;
mod resuming;
mod standing;
mod whole;

pub use self::joining::Joined;
pub use self::laws::{known_clients_find_a_place, preparing_gives_no_birth};
pub use self::refusing::refuse;
pub use self::whole::on_connect;
