//! What no clause of mqtt_props says: values from the standard's tables, and each call once.

mod edits;
mod lists;
mod memory;
mod places;
mod rows;
