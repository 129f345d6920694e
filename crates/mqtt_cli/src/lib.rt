//! The command line of `mqtt5`, and what `view` and `vectors` write.
#![tactic(auto)]

mod command;
mod viewer;

pub use command::{
    Action, DONE, FAILED, FAULTY, LineFault, Outcome, USAGE, VERSION, action, exit_status, perform,
    run,
};
pub use mqtt_flow::Full;
pub use mqtt_link::{Commit, ServeFault};
pub use mqtt_rules::{Capacity, Limits};
pub use mqtt_script::{BadLine, BadReason, Played, ReplayFault};
pub use viewer::{
    Details, Gives, Status, Vector, VectorsFault, ViewFault, is_right, known_vectors, one_view,
    texts_read_back, vectors, view,
};
