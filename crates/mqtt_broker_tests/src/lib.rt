//! Tests of the broker over its public calls, as scripts: what it tells, what it refuses, streams that are cut, changed or made
//! to cost much, want of memory, a store of which each call fails in turn, a store in SQL; and what is published
//! (MQTT 5.0, 2.1, 3, 4).
#![tactic(auto)]

#[cfg(test)]
mod broker;
#[cfg(test)]
mod checks;
#[cfg(test)]
mod costly;
#[cfg(test)]
mod counted;
#[cfg(test)]
mod drained;
#[cfg(test)]
mod engine;
#[cfg(test)]
mod failing;
#[cfg(test)]
mod faults;
#[cfg(test)]
mod first_schema;
#[cfg(test)]
mod judging;
#[cfg(test)]
mod kept;
#[cfg(test)]
mod play;
#[cfg(test)]
mod playing;
#[cfg(test)]
mod publications;
#[cfg(test)]
mod reading;
#[cfg(test)]
mod run;
#[cfg(test)]
mod scripts;
#[cfg(test)]
mod sql;
#[cfg(test)]
mod streams;
#[cfg(test)]
mod sweeps;
#[cfg(test)]
mod tables;
#[cfg(test)]
mod taken;
#[cfg(test)]
mod telling;
