//! Tests of mqtt_store_database::loading, over the ported SQLite in memory.

mod databases;
mod loaded;
mod opened;
