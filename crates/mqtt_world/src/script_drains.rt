//! The law of drains of a script, whose broker chooses anew in each turn: they empty the receiver's queue (MQTT 5.0, 4.3,
//! 4.4, 4.6).

mod laws;

pub use self::laws::drains_of_a_script_empty_the_queue;
