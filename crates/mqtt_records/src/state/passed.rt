//! What is stored is such as publications pass on: the types of its properties have it, and here it is told (MQTT 5.0,
//! 3.3.2.3).

ghost use Rattle.std.specs.List.{AllByRecursion};
ghost use Rattle.mqtt_records.specs.messages.PassedOn.{IsPassedOn};
ghost use Rattle.mqtt_records.specs.state.PassedOn.{StoresPassedOn};

use crate::lists::Boxed;
use crate::messages::{CopyRow, RetainedMessage};
use crate::state::records::Records;
use crate::state::session::Session;

/// A copy. Takes no memory.
fn copy_passes_on(row: &Boxed<CopyRow>)
    ensures { IsPassedOn row.now.copy.content.properties }
{
    row.get().passes_on();
}

/// The copies of a queue. Takes no memory.
fn queue_passes_on(queue: &[Boxed<CopyRow>])
    ensures { AllByRecursion (λ e. IsPassedOn e.copy.content.properties) queue.now }
{
    for row in queue {
        copy_passes_on(row);
    }
}

/// Those of a session. Takes no memory.
fn session_passes_on(session: &Boxed<Session>)
    ensures { AllByRecursion (λ e. IsPassedOn e.copy.content.properties) session.now.queue }
{
    queue_passes_on(session.get().queue.as_slice());
}

/// Those of all sessions. Takes no memory.
fn sessions_pass_on(sessions: &[Boxed<Session>])
    ensures { AllByRecursion (λ s. AllByRecursion (λ e. IsPassedOn e.copy.content.properties) s.queue)
        sessions.now }
{
    for session in sessions {
        session_passes_on(session);
    }
}

/// A retained message. Takes no memory.
fn message_passes_on(kept: &Boxed<RetainedMessage>)
    ensures { IsPassedOn kept.now.content.properties }
{
    kept.get().content.properties.lend();
}

/// Retained messages. Takes no memory.
fn retained_pass_on(retained: &[Boxed<RetainedMessage>])
    ensures { AllByRecursion (λ k. IsPassedOn k.content.properties) retained.now }
{
    for kept in retained {
        message_passes_on(kept);
    }
}

/// Copies and retained messages have properties as a publication passes them on: their type gives it, and here it is
/// told (3.3.2.3). Takes no memory.
pub fn records_pass_on(records: &Records)
    ensures { StoresPassedOn records.now }
{
    sessions_pass_on(records.sessions.as_slice());
    retained_pass_on(records.retained.as_slice());
}
