//! Packet identifiers of what is stored have two bytes: the type of a phase has it, and here it is told (MQTT 5.0, 2.2.1).

ghost use Rattle.std.specs.List.{AllByRecursion};
ghost use Rattle.mqtt_broker.specs.stored.Identifiers.{HasShortQueue, HasTwoBytes, HaveTwoBytes};

use mqtt_base::Phase;
use mqtt_records::{Boxed, CopyRow, Records, Session};

/// That of a phase. Takes no memory.
fn has_two_bytes(phase: Phase)
    ensures { HasTwoBytes phase }
{}

/// That of a copy. Takes no memory.
fn copy_has_two_bytes(row: &Boxed<CopyRow>)
    ensures { HasTwoBytes row.now.phase }
{
    has_two_bytes(row.get().phase());
}

/// Those of the copies of a queue. Takes no memory.
fn queue_has_two_bytes(queue: &[Boxed<CopyRow>])
    ensures { AllByRecursion (λ row. HasTwoBytes row.phase) queue.now }
{
    for row in queue {
        copy_has_two_bytes(row);
    }
}

/// Those of a session. Takes no memory.
fn session_has_two_bytes(session: &Boxed<Session>)
    ensures { HasShortQueue session.now }
{
    queue_has_two_bytes(session.get().queue.as_slice());
}

/// Those of sessions. Takes no memory.
fn sessions_have_two_bytes(sessions: &[Boxed<Session>])
    ensures { AllByRecursion HasShortQueue sessions.now }
{
    for session in sessions {
        session_has_two_bytes(session);
    }
}

/// Those of all that is stored. Takes no memory.
pub(crate) fn have_two_bytes(records: &Records)
    ensures { HaveTwoBytes records.now }
{
    sessions_have_two_bytes(records.sessions.as_slice());
}
