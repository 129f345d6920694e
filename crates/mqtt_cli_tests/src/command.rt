//! What no clause of mqtt_cli says: printed lines, failing streams, and each call once.

mod connections;
mod endings;
mod failures;
mod files;
mod limits;
mod lines;
mod objects;
mod properties;
mod streams;
mod words;
