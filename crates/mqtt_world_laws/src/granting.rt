//! The law that each PUBLISH that the broker sends in a run of the world names its topic (MQTT 5.0, 3.3.2.1, 3.3.2.3.4).

mod laws;

pub use self::laws::each_publish_of_every_run_names_its_topic;
