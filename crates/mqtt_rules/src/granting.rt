//! The laws that each PUBLISH that a broker sends names its topic, and so goes out as the law of what goes out
//! asks (MQTT 5.0, 3.1.2.11.5, 3.3.2.1, 3.3.2.3.4).

mod laws;

pub use self::laws::{
    each_client_is_granted_what_it_takes, each_publish_names_its_topic,
    each_step_means_what_was_meant,
};
