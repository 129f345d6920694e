//! Whether the copies of each publication and its retained message say the same (3.3).
ghost use Rattle.std.specs.Prelude.{◌≡◌, ◌↔◌, ◌++◌, flat_map, map, IfOk, IsTrue, OnOk};
ghost use Rattle.mqtt_records.specs.state.Contents.{SharesContents, copy_message, retained_message};
ghost use Rattle.mqtt_keep.specs.contents.Listed.{messages_of, said, Agrees, AllAgree, NeighboursAgree};

use crate::contents::alike::are_alike;
use mqtt_records::{Boxed, ContentRef, CopyRow, Records, RetainedMessage, Session};
use std::alloc::{AllocError, Global};

/// The number of a publication, and what is said under it.
type Said<'a> = (u64, ContentRef<'a>);

/// Whether two messages say the same if they have one number.
fn agree(one: &Said<'_>, next: &Said<'_>) -> bool
    ensures { IsTrue result ↔ Agrees (said one.now) (said next.now) }
{
    one.0 != next.0 || are_alike(&next.1, &one.1)
}

/// Whether each message agrees with the next.
fn neighbours_agree(messages: &[Said<'_>]) -> bool
    ensures { IsTrue result ↔ NeighboursAgree messages.now }
{
    for at in 1..messages.len() {
        if !agree(&messages[at - 1], &messages[at]) {
            return false;
        }
    }
    true
}

/// Whether each message agrees with each. They are put in the order of their numbers. Takes no
/// memory.
fn all_agree(messages: &mut [Said<'_>]) -> bool
    ensures { IsTrue result ↔ AllAgree (map said messages.old) }
{
    messages.sort_unstable_by_key(|message| message.0);
    neighbours_agree(messages)
}

/// Adds what the copies in a queue say.
fn push_queue<'a>(
    messages: &mut Vec<Said<'a>>,
    queue: &'a [Boxed<CopyRow>],
) -> Result<(), AllocError>
    ensures { OnOk result (map said messages.new.items
        ≡ map said messages.old.items ++ map copy_message queue.now) }
{
    let mut rest = queue;
    while let Some((row, after)) = rest.split_first() {
        // What a store is opened with is whole.
        let Some(copy) = row.get().whole() else {
            return Err(AllocError);
        };
        messages.push((copy.id.publication, copy.content))?;
        rest = after;
    }
    Ok(())
}

/// Adds what the copies in the queues of sessions say.
fn push_sessions<'a>(
    messages: &mut Vec<Said<'a>>,
    sessions: &'a [Boxed<Session>],
) -> Result<(), AllocError>
    ensures { OnOk result (map said messages.new.items
        ≡ map said messages.old.items ++ flat_map (λ s. map copy_message s.queue) sessions.now) }
{
    let mut rest = sessions;
    while let Some((session, after)) = rest.split_first() {
        push_queue(messages, session.get().queue.as_slice())?;
        rest = after;
    }
    Ok(())
}

/// Adds what retained messages say.
fn push_retained<'a>(
    messages: &mut Vec<Said<'a>>,
    retained: &'a [Boxed<RetainedMessage>],
) -> Result<(), AllocError>
    ensures { OnOk result (map said messages.new.items
        ≡ map said messages.old.items ++ map retained_message retained.now) }
{
    let mut rest = retained;
    while let Some((kept, after)) = rest.split_first() {
        let kept = kept.get();
        messages.push((kept.publication, kept.content.lend()))?;
        rest = after;
    }
    Ok(())
}

/// All that is said in records.
fn messages_of(alloc: Global, records: &Records) -> Result<Vec<Said<'_>>, AllocError>
    ensures { IfOk result (λ messages. map said messages.items ≡ messages_of records.now) }
{
    let mut messages = Vec::new(alloc);
    push_sessions(&mut messages, records.sessions.as_slice())?;
    push_retained(&mut messages, records.retained.as_slice())?;
    Ok(messages)
}

/// Whether all copies and retained messages of one number say the same topic, properties and
/// payload. A copy that is slim in memory is refused as for want of memory.
pub fn shares_contents(alloc: Global, records: &Records) -> Result<bool, AllocError>
    ensures { IfOk result (λ shared. IsTrue shared ↔ SharesContents records.now) }
{
    let mut messages = messages_of(alloc, records)?;
    let shared = all_agree(&mut messages);
    drop(messages);
    Ok(shared)
}
