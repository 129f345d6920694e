//! What a turn makes of a queue of outbound copies (4.3).

ghost use Rattle.std.specs.Prelude.{◌≡◌, ◌≤◌, filter, map, nat_eq, not, vec_capacity, vec_len};
ghost use Rattle.mqtt_flow.specs.outbound.Queue.{after, marked};
ghost use Rattle.mqtt_flow.specs.outbound.Outbound.{unsent};

use crate::outbound::entry::{Entry, Turn};
use mqtt_base::Phase;

/// Makes of an entry what a turn makes of it.
fn mark(entry: &mut Entry, turn: Turn)
    ensures { entry.new ≡ marked turn entry.old }
{
    match turn {
        Turn::Send { place, identifier } => {
            if entry.place == place {
                entry.phase = Phase::Sent { identifier };
                entry.here = true;
            }
        }
        Turn::Resend { place, .. } => {
            if entry.place == place {
                entry.here = true;
            }
        }
        Turn::Release {
            place,
            identifier,
            order,
        } => {
            if entry.place == place {
                entry.phase = Phase::Released { identifier, order };
            }
        }
        Turn::Outgrow {
            place,
            identifier,
            order,
        } => {
            if entry.place == place {
                entry.phase = Phase::Oversize { identifier, order };
            }
        }
        Turn::Repeat { .. } | Turn::Unknown { .. } | Turn::Leave { .. } => {}
    }
}

/// Makes of each entry what a turn makes of it.
fn mark_all(entries: &mut [Entry], turn: Turn)
    ensures { entries.new ≡ map (marked turn) entries.old }
{
    for entry in entries.iter_mut() {
        mark(entry, turn);
    }
}

/// Removes the entry at a place.
fn remove(entries: &mut Vec<Entry>, place: u64)
    ensures items { entries.new.items ≡ filter (λ e. not (nat_eq e.place place)) entries.old.items }
    ensures len { vec_len entries.new ≤ vec_len entries.old }
    ensures capacity { vec_capacity entries.new ≡ vec_capacity entries.old }
{
    entries.retain(|entry| entry.place != place);
}

/// Makes of a queue what a turn makes of it.
pub(crate) fn apply(entries: &mut Vec<Entry>, turn: Turn)
    ensures items { entries.new.items ≡ after turn entries.old.items }
    ensures len { vec_len entries.new ≤ vec_len entries.old }
    ensures capacity { vec_capacity entries.new ≡ vec_capacity entries.old }
{
    match turn {
        Turn::Leave { place, .. } => remove(entries, place),
        Turn::Repeat { .. } | Turn::Unknown { .. } => {}
        _ => mark_all(entries, turn),
    }
}

/// Forgets of each entry that it was sent on this connection.
fn forget_all(entries: &mut [Entry])
    ensures { entries.new ≡ map unsent entries.old }
{
    for entry in entries.iter_mut() {
        entry.here = false;
    }
}

/// Forgets of a queue what was sent on this connection.
pub(crate) fn forget(entries: &mut Vec<Entry>)
    ensures items { entries.new.items ≡ map unsent entries.old.items }
    ensures len { vec_len entries.new ≡ vec_len entries.old }
    ensures capacity { vec_capacity entries.new ≡ vec_capacity entries.old }
{
    forget_all(entries);
}
