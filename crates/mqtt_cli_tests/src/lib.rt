//! Tests of `mqtt_cli` over its public calls.
#![tactic(auto)]

#[cfg(test)]
mod command;
#[cfg(test)]
mod viewer;
