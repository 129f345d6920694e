//! Tests of mqtt_store_rows::rows, over tables of the ported SQLite in memory.

mod database;
mod queues;
mod referred;
mod refused;
mod said;
