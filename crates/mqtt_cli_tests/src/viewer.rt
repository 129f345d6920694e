//! What no clause of mqtt_cli::viewer says: lines from outside, views of inputs that come in pieces, and wrong vectors.

mod examples;
mod sweeps;
mod vectors;
mod views;
