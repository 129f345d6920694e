//! Wills, the end of a session, settling, and closing a line, as the rules have them, over the tables of a
//! step (MQTT 5.0, 3.1.2.5, 3.1.2.11.2, 3.1.3.2.2, 3.14.4, 4.1).

mod closing;
mod ending;
mod leaving;
mod settling;
mod ticking;
mod wills;

pub use self::closing::{close, drop_line};
pub use self::ending::end_session;
pub use self::leaving::{disconnect, lost};
pub use self::settling::settle;
pub use self::ticking::{close_silent, silent_line};
pub use self::wills::publish_will;
