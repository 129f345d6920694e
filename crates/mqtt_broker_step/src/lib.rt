//! The broker's tables, and a step under way on them: deeds of the rules done in place, noted for the
//! store, and taken back whole if the step isn't made (MQTT 5.0, 4.1).
#![tactic(auto)]

mod aliasing;
mod beginning;
mod call;
mod entering;
mod fault;
mod handshakes;
mod leaving;
mod line;
mod lines;
mod linking;
mod listing;
mod naming;
mod numbers;
mod outputs;
mod places;
mod resuming;
mod retained;
mod retained_looks;
mod seeking;
mod sessions;
mod slimming;
mod started;
mod step;
mod subscribing;
mod tables;
mod telling;
mod undo;

pub use call::{EngineError, Outcome, commit_kept};
pub use fault::StepFault;
pub use line::{LineChange, LineState};
pub use outputs::Outgoing;
pub use places::Places;
pub use step::Step;
pub use subscribing::{filters_stay_apart, subscription_to};
pub use telling::LineTopics;
pub use undo::Undo;
