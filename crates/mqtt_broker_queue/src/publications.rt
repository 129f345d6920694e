//! What a PUBLISH of a client does, and of any packet what the rules' act of its name does, over the tables of a step and
//! whoever routes publications (MQTT 5.0, 3.3, 4.3). Private.

mod aliasing;
mod answering;
mod client_publish;
mod common;
mod copies;
mod delivering;
mod fresh;
mod meant;
mod message;
mod offering;
mod ping;
mod publishing;
mod releasing;
mod retaining;
mod router;
mod seats;
mod standing;
mod taking;

pub use self::answering::{answer, open_by, publish_again};
pub use self::client_publish::{Handled, on_publish};
pub use self::copies::{Addressee, Copies};
pub use self::delivering::deliver_all;
pub use self::message::Message;
pub use self::ping::pingreq;
pub use self::publishing::publish;
pub use self::releasing::pubrel;
pub use self::retaining::retain;
pub use self::router::{Router, Routing};
pub use self::taking::{publish_refused, publish_taken};
