//! A store in SQL has nothing that waits to be written: each step is a transaction (MQTT 5.0, 4.1).
use crate::keep::SqlKeep;
use mqtt_keep::{KeepError, Settles};
use sqlite::Alter;

impl<S: Alter + Drop> Settles for SqlKeep<S> {
    fn settle(&mut self) -> Result<(), KeepError> {
        Ok(())
    }
}
