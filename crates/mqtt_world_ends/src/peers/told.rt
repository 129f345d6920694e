//! What a run of a world tells, and why it ends before its events do.

ghost use Rattle.std.specs.Prelude.{◌≡◌};
ghost use Rattle.mqtt_world_model.specs.model.Tellings.{silent};

use mqtt_rules::Report;
use std::alloc::{AllocError, Global};
use std::marker::Model;
use thiserror::Error;

/// What one event told: what the broker reports, and how many of its packets went out.
#[derive(Debug, Drop)]
pub struct Told {
    /// In the order of what they tell; none if the broker stops or restarts.
    pub reports: Vec<Report>,
    /// The packets that went out.
    pub out: u64,
}

impl Model for Told {
    ghost use Rattle.mqtt_world_model.specs.model.Tellings as tellings;

    ghost Value = { tellings.Telling };

    ghost view = { λ t. record { reports = t.reports.items; out = t.out } };
}

impl Told {
    /// An event that asks nothing of the broker, a stop or a restart. Takes no memory.
    pub fn silent(alloc: Global) -> Told
        ensures { result ≡ silent }
    {
        Told {
            reports: Vec::new(alloc),
            out: 0,
        }
    }
}

/// Why a run of a world ends before its events do.
#[derive(Clone, Copy, Debug, PartialEq, Eq, Error)]
pub enum RunFault {
    /// 1: want of memory. Every later call answers the same.
    #[error("want of memory")]
    Memory,
    /// 2: the store failed, or would be asked for a number above 2^62. Every later call answers the same.
    #[error("the store failed")]
    Store,
    /// 3: an event that can't happen there; those before it have run.
    #[error("event {place} is bad")]
    BadEvent {
        /// Its place among the events, from 0.
        place: usize,
    },
}

impl From<AllocError> for RunFault {
    ghost use Rattle.mqtt_world_ends.specs.declared.peers.told.RunFault.TheVariants.{Memory};

    ghost from_gives = { λ _ fault. fault ≡ Memory };

    fn from(_error: AllocError) -> RunFault {
        RunFault::Memory
    }
}
