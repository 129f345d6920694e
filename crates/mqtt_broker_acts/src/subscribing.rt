//! SUBSCRIBE and UNSUBSCRIBE, as the rules have them, over the tables of a step (MQTT 5.0, 3.8 to 3.11).

mod answering;
mod bringing;
mod copying;
mod dropping;
mod enrolling;
mod granting;
mod late;
mod offering;
mod subscribing;
mod unsubscribing;

pub use self::bringing::brought;
pub use self::enrolling::enroll;
pub use self::granting::answer_filter;
pub use self::late::send_late;
pub use self::subscribing::subscribe;
pub use self::unsubscribing::unsubscribe;
