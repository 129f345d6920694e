//! When the server stores the steps of its broker (MQTT 5.0, 4.1).

/// When what the broker did is stored. In both cases nothing of it goes out before.
#[derive(Clone, Copy, Debug, PartialEq, Eq)]
pub enum Commit {
    /// The steps of a turn are stored together, as one transaction.
    Turn,
    /// Each step is stored by itself.
    Step,
}
