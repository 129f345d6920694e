//! What is told at most once a second (ours).
ghost use Rattle.std.specs.Prelude.{◌≡◌, ◌≤◌, ◌<◌, IfNone, IfSome};

use crate::journal::copy_event::CopyLoss;
use std::mem;

/// Milliseconds from one that is told to the next, at least (ours).
const APART: u64 = 1_000;

/// One kind of what is told at most once a second.
#[derive(Clone, Copy, Debug)]
pub(crate) struct Seldom {
    next: u64,
    untold: u64,
}

impl Seldom {
    /// The first is told.
    pub fn new() -> Seldom {
        Seldom { next: 0, untold: 0 }
    }

    /// Whether one at this moment is told: then how many were not since the last that was.
    pub fn tell(&mut self, moment: u64) -> Option<u64>
        ensures told { IfSome result (λ untold. untold ≡ self.old.untold) }
        ensures may { IfSome result (λ _. self.old.next ≤ moment) }
        ensures early { IfNone result (moment < self.old.next) }
    {
        if moment < self.next {
            self.untold = self.untold.saturating_add(1);
            return None;
        }
        self.next = moment.saturating_add(APART);
        Some(mem::replace(&mut self.untold, 0))
    }
}

/// Each kind of what is told at most once a second.
#[derive(Clone, Copy, Debug)]
pub(crate) struct Kinds {
    /// Publications that were refused.
    pub full: Seldom,
    dropped: Seldom,
    too_large: Seldom,
    expired: Seldom,
    /// Wills that were not accepted.
    pub will: Seldom,
}

impl Kinds {
    /// The first of each is told.
    pub fn new() -> Kinds {
        let first = Seldom::new();
        Kinds {
            full: first,
            dropped: first,
            too_large: first,
            expired: first,
            will: first,
        }
    }

    /// Whether a copy that ended at this moment is told: then how many were not.
    pub fn tell_copy(&mut self, moment: u64, why: CopyLoss) -> Option<u64> {
        match why {
            CopyLoss::Dropped => self.dropped.tell(moment),
            CopyLoss::TooLarge => self.too_large.tell(moment),
            CopyLoss::Expired => self.expired.tell(moment),
        }
    }
}
