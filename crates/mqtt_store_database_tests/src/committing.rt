//! Tests of a step's changes in a database of schema 2: the rows that they make, and that a step that fails makes none (4.1).

mod changes;
mod receivers;
mod steps;
