//! Laws of which copies are too large for a client that is told topics by aliases (MQTT 5.0, 3.1.2.11.4, 3.3.2.3.4). Private.

mod laws;

pub use self::laws::{
    a_pump_of_whole_copies_goes_by_whole_topics, a_whole_copy_is_offered_by_its_whole_topic,
    only_what_has_no_form_is_too_large, who_was_told_nothing_is_sent_whole_topics,
};
