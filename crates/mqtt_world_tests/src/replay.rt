//! What no clause of mqtt_replay::over_world says: the texts of scripts that are worked out by hand, a broker that stops at each commit,
//! over each store, a receiver that is drained, events that can't happen, a long script, and stores that fail.

mod bad;
mod drains;
mod examples;
mod files;
mod limits;
mod long;
mod playing;
mod rows;
mod stops;
mod wills;
