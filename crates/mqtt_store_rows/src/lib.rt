//! What each row of the tables says, and the records that all rows give (MQTT 5.0, 4.1).
#![tactic(auto)]

pub mod gathering;
pub mod rows;
pub mod taking_over;
pub mod values;
