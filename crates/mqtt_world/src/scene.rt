//! A broker with its ends, as a program: what each call makes of both (MQTT 5.0, 4.1 to 4.4).

mod asks;
mod draining;
mod halt;
mod hearing;
mod joining;
mod opening;
mod over;
mod playing;
mod quiet;
mod scene;
mod spelled;
mod stopping;

pub use self::halt::Halt;
pub use self::scene::Scene;
pub use self::spelled::each_packet_is_read_as_it_was_sent;
