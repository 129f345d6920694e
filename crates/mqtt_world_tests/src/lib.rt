//! Tests of the world: scripts, its ends, runs over a broker, and what `replay` writes (MQTT 5.0,
//! 4.3, 4.4).
#![tactic(auto)]

#[cfg(test)]
mod clients;
#[cfg(test)]
mod handshakes;
#[cfg(test)]
mod peers;
#[cfg(test)]
mod playing;
#[cfg(test)]
mod replay;
#[cfg(test)]
mod script;
#[cfg(test)]
mod strangers;
#[cfg(test)]
mod world;
