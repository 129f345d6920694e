//! Tests of mqtt_store_rows and mqtt_store_rows, over tables of the ported SQLite in memory.

mod database;
mod refused;
mod said;
