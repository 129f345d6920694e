//! A store in front of a store, which gathers changes until it is settled (4.1).

mod counts;
mod gathered;
mod joins;
mod rows;

pub use self::gathered::{GATHERED_LIMIT, Gathered};
