//! The store in SQL: records in the tables of a database (MQTT 5.0, 4.1).
#![tactic(auto)]

mod apply;
mod contents;
mod keep;
mod laws;
mod load;
mod opening;
mod settling;

pub use keep::SqlKeep;
pub use laws::{
    crash_leaves_what_it_has, load_keeps_what_it_has, load_leaves_no_more, loaded_store_has,
    step_leaves_one_of_two, store_in_memory_is_sound,
};
pub use mqtt_keep::{Keep, KeepError, MemKeep};
pub use mqtt_records::{Change, Records};
