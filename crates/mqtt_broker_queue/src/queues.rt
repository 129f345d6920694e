//! What a session does with its queue, over the tables of a step: turns of copies, a receiver's answers, pumps
//! (MQTT 5.0, 4.3, 4.4, 4.6, 4.9).

mod ahead;
mod answering;
mod entering;
mod fitting;
mod lapsing;
mod outgoing;
mod pumping;
mod queue;
mod repeats;
mod rooms;
mod turning;
mod turns;

pub use self::ahead::{places_in, turns_at};
pub use self::answering::{Answered, puback, pubcomp, pubrec};
pub use self::entering::enter;
pub use self::lapsing::expire;
pub use self::outgoing::offer_publish;
pub use self::pumping::send_turns;
pub use self::repeats::repeats_of;
pub use self::rooms::room;
pub use self::turning::turn;
pub use self::turns::take_turns;
