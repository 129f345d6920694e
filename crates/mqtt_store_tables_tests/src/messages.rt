//! Tests of the statements of schema 2: their texts run in a database that is new, and in one that was taken over (4.1).

mod changes;
mod course;
