//! Laws of the ends of copies in every run of the world: each has its cause, by the standard and by the rules (MQTT
//! 5.0, 3.1.2.4, 3.1.2.11, 3.3.2.3.3, 4.3).

mod cause_laws;

pub use self::cause_laws::each_end_has_its_cause;
