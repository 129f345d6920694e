//! The tables of the store in SQL: their forms, and all statements on them. It stands on SQL alone
//! (MQTT 5.0, 4.1).
#![tactic(auto)]

pub mod forms;
pub mod messages;
pub mod schema;
pub mod statements;
pub mod together;
