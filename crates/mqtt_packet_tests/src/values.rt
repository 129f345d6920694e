//! What no clause of mqtt_base says: values from the standard's tables, and each call once.

mod clones;
mod codes;
mod numbers;
mod texts;
