//! Laws of drains of the world that are not bad: they empty the receiver's queue (MQTT 5.0, 4.3, 4.4, 4.6).

mod laws;

pub use self::laws::a_drain_empties_the_queue;
