//! Strangers of a world: their lines, and their bytes packet by packet (MQTT 5.0, 2.1).

mod front;
mod laws;
mod strangers;

pub use self::laws::{a_piece_is_a_step, a_stranger_is_welcomed_first, pieces_are_good};
pub use self::strangers::{Piece, Strangers};
