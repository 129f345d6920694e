//! The command line of `mqtt5`, and what its commands do over any reader and writer.

mod limits;
mod line;
mod outcome;
mod program;
mod values;
mod version;
mod words;
mod wrong_values;

pub use self::line::{Action, LineFault};
pub use self::outcome::{DONE, FAILED, FAULTY, Outcome, USAGE, exit_status};
pub use self::program::{perform, run};
pub use self::version::VERSION;
pub use self::words::action;
