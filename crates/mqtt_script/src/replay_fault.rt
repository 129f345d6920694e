//! How the replay of a script ends (ours).

ghost use Rattle.std.specs.Prelude.{◌≡◌};

use crate::bad_line::BadLine;
use std::alloc::{AllocError, AllocFailed};
use thiserror::Error;

/// What a script ended with.
#[derive(Clone, Copy, Debug, PartialEq, Eq)]
pub enum Played {
    /// Its last line: each of its events happened.
    Whole,
    /// A line that is no event, or an event that can't happen there.
    Bad(BadLine),
}

/// Why a replay stopped early.
#[derive(Clone, Copy, Debug, PartialEq, Eq, Error)]
pub enum ReplayFault {
    /// 1: a read failed, or the script's file did not open. Whole lines were written, a beginning of the text.
    #[error("a read failed")]
    Read = 1,
    /// 2: a write failed. Nothing is said of what was written.
    #[error("a write failed")]
    Write = 2,
    /// 3: want of memory. Whole lines were written, a beginning of the text.
    #[error("want of memory")]
    Memory = 3,
    /// 4: the world's store failed. Whole lines were written, a beginning of the text.
    #[error("the store failed")]
    Store = 4,
}

impl From<AllocError> for ReplayFault {
    ghost use Rattle.mqtt_script.specs.declared.replay_fault.ReplayFault.TheVariants.{Memory};

    ghost from_gives = { λ _ fault. fault ≡ Memory };

    fn from(_error: AllocError) -> ReplayFault {
        ReplayFault::Memory
    }
}

impl<T: Drop> From<AllocFailed<T>> for ReplayFault {
    ghost use Rattle.mqtt_script.specs.declared.replay_fault.ReplayFault.TheVariants.{Memory};

    ghost from_gives = { λ _ fault. fault ≡ Memory };

    fn from(_error: AllocFailed<T>) -> ReplayFault {
        ReplayFault::Memory
    }
}
