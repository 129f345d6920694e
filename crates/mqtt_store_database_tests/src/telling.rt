//! Tests of mqtt_store_database::telling, over the ported SQLite in memory.

mod database;
mod read;
