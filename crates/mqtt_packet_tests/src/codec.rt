//! Tests of the fifteen packets over public calls: values from outside, and that calls succeed (2.1, 3.1 to 3.15, 4.13).

mod common;
mod fields;
mod layouts;
mod lists;
mod memory;
mod rules;
mod spelled;
mod sweeps;
mod vectors;
