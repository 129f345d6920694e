//! Tests of schema 2: databases in memory that are made or taken over, or made by texts, and what each is found to be (4.1).

mod databases;
mod found;
mod made;
