//! Tests of mqtt_store_database::reading, over the ported SQLite in memory.

mod database;
mod read;
mod refused;
