//! What a store is: lawful records, what it holds after each call and after a crash, and the store
//! in memory (MQTT 5.0, 4.1).
#![tactic(auto)]

mod by_name;
mod contents;
mod keeping;
mod lawful;
mod payloads;

pub use by_name::NamedRecords;
pub use contents::{
    change_shares_contents, changes_share_contents, nothing_shares_contents, shares_contents,
};
pub use keeping::faulty::{Failure, FaultyKeep};
pub use keeping::{Keep, KeepError, MemKeep, Settles, slim_if_lawful};
pub use lawful::{is_lawful, nothing_is_lawful};
pub use payloads::payloads_may_be_others;
