//! What any store of records promises, and the stores in memory (3.3, 4.1).

pub mod faulty;
mod keep;
mod loading;
mod memory;
mod settling;

pub use self::keep::{Keep, KeepError};
pub use self::loading::slim_if_lawful;
pub use self::memory::MemKeep;
pub use self::settling::Settles;
