//! What the copies of a publication and its retained message say alike (MQTT 5.0, 3.3, 4.1). Private to the records.

mod alike;
mod contents;
mod laws;

pub use self::contents::shares_contents;
pub use self::laws::{change_shares_contents, changes_share_contents, nothing_shares_contents};
