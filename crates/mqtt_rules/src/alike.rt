//! The law that states which are alike but for what their waiting copies say do alike (MQTT 5.0, 3.3, 4.6).

mod alike_laws;

pub use self::alike_laws::{alike_pumps, alike_steps, slim_rows_are_alike};
