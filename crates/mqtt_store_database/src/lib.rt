//! A database that keeps records: what it keeps of them, how it is loaded, and how a step is committed
//! (MQTT 5.0, 4.1).
#![tactic(auto)]

pub mod asking;
pub mod committing;
pub mod found;
pub mod item_laws;
pub mod loading;
pub mod reading;
pub mod row_laws;
pub mod taking_over;
pub mod telling;
pub mod written;
