//! Tests of the store in SQL: the rows that changes make, databases that a load takes or refuses, interrupted statements,
//! and files that were cut, changed or fail, all in memory (MQTT 5.0, 4.1).
#![tactic(auto)]

#[cfg(test)]
mod broken;
#[cfg(test)]
mod changes;
#[cfg(test)]
mod databases;
#[cfg(test)]
mod files;
#[cfg(test)]
mod first_databases;
#[cfg(test)]
mod first_schema;
#[cfg(test)]
mod limits;
#[cfg(test)]
mod rows;
#[cfg(test)]
mod second_databases;
#[cfg(test)]
mod seen;
#[cfg(test)]
mod store;
#[cfg(test)]
mod told;
