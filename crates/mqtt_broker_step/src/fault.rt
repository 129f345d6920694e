//! Why a deed isn't done.
ghost use Rattle.std.specs.Prelude.{◌≡◌};
ghost use Rattle.mqtt_broker_step.specs.declared.fault.StepFault.TheVariants.{Memory};

use std::alloc::{AllocError, AllocFailed};
use thiserror::Error;

/// Why a deed isn't done. The step is then taken back, and nothing has changed.
#[derive(Clone, Copy, Debug, PartialEq, Eq, Error)]
pub enum StepFault {
    /// 1: want of memory.
    #[error("want of memory")]
    Memory = 1,
    /// 3: the next number would be above `LAST_NUMBER` (ours).
    #[error("numbers are spent")]
    Spent = 3,
}

impl From<AllocError> for StepFault {
    ghost from_gives = { λ _ fault. fault ≡ Memory };

    fn from(_: AllocError) -> Self {
        StepFault::Memory
    }
}

impl<T: Drop> From<AllocFailed<T>> for StepFault {
    ghost from_gives = { λ _ fault. fault ≡ Memory };

    fn from(_: AllocFailed<T>) -> Self {
        StepFault::Memory
    }
}
