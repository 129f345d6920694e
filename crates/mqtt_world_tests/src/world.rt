//! Worlds over a store in memory, on which scripts are run: what they tell, and what is seen of them (MQTT 5.0, 4.1 to 4.4).

mod drains;
mod refusals;
mod scripts;
mod stage;
mod stops;
