//! Tests of mqtt_store_rows::gathering, over tables of the ported SQLite in memory.

mod database;
mod gathered;
mod queues;
mod refused;
