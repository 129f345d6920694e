//! Tests of `mqtt_link` and `mqtt_serve` over their public calls.
#![tactic(auto)]

#[cfg(test)]
mod database;
#[cfg(test)]
mod link;
#[cfg(test)]
mod net_link;
#[cfg(test)]
mod serving;
#[cfg(test)]
mod turns;
