//! Tests of `mqtt_script` over its public calls: the lines of a script, and the text of what it tells (ours).

mod lines;
mod refusals;
mod shown;
mod telling;
