//! The laws that the copies of receivers fit on their lines with whole topics, and so a pump that looks at forms is the one
//! that looks at whole topics (MQTT 5.0, 3.1.2.11.4, 3.3.2.3.4).

mod laws;

pub use self::laws::whole_copies_fit_in_every_run;
