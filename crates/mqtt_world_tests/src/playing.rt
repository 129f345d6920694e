//! What no clause of mqtt_replay says: the text of a script from outside, lines that are no events, readers and writers
//! that fail (ours).

mod devices;
mod lines;
mod refusals;
mod scripts;
mod toy;
