//! The law that runs of the world in which PUBLISH goes out in forms are runs of the world of what they mean (MQTT 5.0, 3.3.2.3.4).

mod laws;

pub use self::laws::{
    copies_in_forms_are_handed_over_once, each_publish_is_understood,
    every_run_means_what_was_meant,
};
