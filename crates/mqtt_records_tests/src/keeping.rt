//! Tests of mqtt_records and the crates that it re-exports, over their public calls.

mod kept;
mod long;
mod sent;
mod slim;
mod told;
