//! Why a line is not read as an event (ours).

ghost use Rattle.std.specs.Prelude.{◌≡◌};

use std::alloc::AllocError;
use thiserror::Error;

/// Why a line is not read as an event.
#[derive(Clone, Copy, Debug, PartialEq, Eq, Error)]
pub enum ScriptFault {
    /// 1: the line is the text of no event.
    #[error("no event")]
    NoEvent = 1,
    /// 2: want of memory.
    #[error("want of memory")]
    Memory = 2,
}

impl From<AllocError> for ScriptFault {
    ghost use Rattle.mqtt_script.specs.declared.fault.ScriptFault.TheVariants.{Memory};

    ghost from_gives = { λ _ fault. fault ≡ Memory };

    fn from(_error: AllocError) -> ScriptFault {
        ScriptFault::Memory
    }
}
