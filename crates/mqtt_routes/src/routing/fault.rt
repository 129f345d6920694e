//! Why a table of routes is as it was before the call.
ghost use Rattle.std.specs.Prelude.{◌≡◌};
ghost use Rattle.mqtt_routes.specs.declared.routing.fault.RoutesFault.TheVariants.{Memory};

use crate::tree::TreeFault;
use std::alloc::{AllocError, AllocFailed};
use thiserror::Error;

/// Why a call did nothing.
#[derive(Clone, Copy, Debug, PartialEq, Eq, Error)]
pub enum RoutesFault {
    /// 1: a queue or a table that the call needs is full (ours).
    #[error("a queue or a table is full")]
    Full = 1,
    /// 2: want of memory.
    #[error("want of memory")]
    Memory = 2,
}

impl From<AllocError> for RoutesFault {
    ghost from_gives = { λ _ fault. fault ≡ Memory };

    fn from(_: AllocError) -> RoutesFault {
        RoutesFault::Memory
    }
}

impl<T: Drop> From<AllocFailed<T>> for RoutesFault {
    ghost from_gives = { λ _ fault. fault ≡ Memory };

    fn from(_: AllocFailed<T>) -> RoutesFault {
        RoutesFault::Memory
    }
}

impl From<TreeFault> for RoutesFault {
    ghost from_gives = { λ _ fault. fault ≡ Memory };

    fn from(_: TreeFault) -> RoutesFault {
        RoutesFault::Memory
    }
}
