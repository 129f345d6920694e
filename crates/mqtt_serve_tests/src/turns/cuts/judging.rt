//! Whether what a power cut left had been settled, and was gone on with (MQTT 5.0, 4.1, 4.3.3).
use crate::turns::course::{Seen, stored};
use crate::turns::cuts::peers::{Known, NOTHING};
use crate::turns::cuts::runs::{Ran, Told};
use mqtt_base::Phase;

/// What came of a cut.
#[derive(Clone, Copy, Debug)]
pub(crate) struct Cut {
    /// Whether what was written to the files and not synced was lost.
    pub(crate) is_lost: bool,
    /// The run up to it; none if the files couldn't be opened.
    pub(crate) first: Option<Told>,
    /// The run over what it left.
    pub(crate) again: Option<Told>,
}

/// What the clients know after a run.
pub(crate) fn known_after(told: Option<Told>) -> Known {
    match told {
        Some(told) => told.known,
        None => NOTHING,
    }
}

/// Whether the first copy waits for the answer to its PUBLISH, with identifier 1.
fn is_waiting(seen: Seen) -> bool {
    match seen.phases[0] {
        Some(Phase::Sent { identifier }) => identifier == 1,
        _ => false,
    }
}

/// Whether it waits for the answer to its PUBREL.
fn is_released(seen: Seen) -> bool {
    match seen.phases[0] {
        Some(Phase::Released { identifier, .. }) => identifier == 1,
        _ => false,
    }
}

/// Whether what "p" was told is stored: the publication of the PUBREC and of the PUBACK, and by PUBCOMP the end of its identifier.
fn has_published(known: Known, seen: Seen) -> bool {
    (!known.is_received || seen.publications > 0)
        && (!known.is_acknowledged || seen.publications > 1)
        && (!known.is_complete || seen.open == 0)
}

/// Whether what "s" was handed is stored: the copy of the PUBLISH until it has ended, and its release by PUBREL.
fn has_handed(known: Known, seen: Seen) -> bool {
    if known.handed == 0 {
        return true;
    }
    if known.is_open {
        return is_waiting(seen) || is_released(seen);
    }
    is_released(seen) || seen.copies == 0
}

/// Whether all that the clients were told is stored: also the session of each CONNACK, and the subscription of the SUBACK.
fn is_stored(known: Known, seen: Seen) -> bool {
    known.greeted <= seen.sessions
        && (!known.is_subscribed || seen.subscriptions == 1)
        && has_published(known, seen)
        && has_handed(known, seen)
}

/// How many publications there are in the end: the message at QoS 2 once, and that at QoS 1 twice if it was stored and no PUBACK
/// came.
fn publications(known: Known, found: Seen) -> u64 {
    if found.publications == 2 && !known.is_acknowledged {
        3
    } else {
        2
    }
}

/// Whether both clients were answered to the end, and the message at QoS 2 was handed over once.
fn is_answered(known: Known) -> bool {
    known.handed == 1
        && !known.is_open
        && known.is_subscribed
        && known.is_received
        && known.is_complete
        && known.is_acknowledged
        && !known.is_wrong
}

/// Whether both sessions and the subscription are there, and nothing of either message waits.
fn is_ended(seen: Seen) -> bool {
    seen.sessions == 2 && seen.subscriptions == 1 && seen.copies == 0 && seen.open == 0
}

impl Cut {
    /// How far the run up to it came.
    fn ran(self) -> Ran {
        if let Some(first) = self.first {
            if let Some(ran) = first.ran {
                return ran;
            }
        }
        Ran {
            stored: 0,
            is_broken: true,
            is_cut: false,
        }
    }

    /// Whether it left what was settled last (false), or all that the stretch did which broke off (true); none if anything else.
    fn is_later(self, found: Seen) -> Option<bool> {
        let ran = self.ran();
        if found == stored(ran.stored) {
            return Some(false);
        }
        if ran.is_broken && found == stored(ran.stored.saturating_add(1)) {
            return Some(true);
        }
        None
    }

    /// The same, if all that left the server was stored, and both messages came to their end once the clients came again.
    pub(crate) fn judge(self) -> Option<bool> {
        let again = self.again?;
        let (found, after) = (again.before?, again.after?);
        let known = known_after(self.first);
        let is_right = is_stored(known, found)
            && is_answered(again.known)
            && is_ended(after)
            && after.publications == publications(known, found);
        if is_right { self.is_later(found) } else { None }
    }

    /// Whether the power wasn't cut before the end of the run.
    pub(crate) fn is_none(self) -> bool {
        let ran = self.ran();
        !ran.is_broken && !ran.is_cut
    }
}
