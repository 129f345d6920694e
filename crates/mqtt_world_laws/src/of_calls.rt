//! The laws of a broker whoever calls it: copies enter and end once (MQTT 5.0, 3.3.4, 4.1, 4.3, 4.9).

mod laws;

pub use self::laws::{
    copies_enter_and_end_once_whoever_calls, each_publish_has_its_dup,
    what_calls_leave_may_be_opened,
};
