//! Tests of a migration: what a database of schema 1 keeps it keeps by schema 2, and one that fails changes nothing (4.1).

mod databases;
mod migrated;
