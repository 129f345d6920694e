//! Scripts are replayed from nothing stored, in memory and over a store in SQL, and what they write is compared.

ghost use Rattle.mqtt_rules.specs.step.Laws.{AreWithin, unasked};

use mqtt_flow::Full;
use mqtt_keep::{Failure, FaultyKeep};
use mqtt_replay::{Limits, Played, ReplayFault, replay, replay_over};
use mqtt_store::SqlKeep;
use sqlite::Connection;
use std::alloc::Global;
use std::hash::RandomState;

/// The limits of the broker's tables.
pub(crate) const LIMITS: Limits = Limits {
    full: Full::Refuse,
    queue: 1_000,
    sessions: 1_000,
    retained: 1_000,
};

/// Replays a script over the store in memory.
pub(crate) fn in_memory(
    alloc: Global,
    hasher: RandomState,
    script: &str,
    written: &mut Vec<u8>,
) -> Result<Played, ReplayFault> {
    let mut reader = script.as_bytes();
    replay(alloc, hasher, &mut reader, written, LIMITS)
}

/// Replays a script over a store in SQL, whose database is in memory.
pub(crate) fn in_sql(
    alloc: Global,
    hasher: RandomState,
    script: &str,
    written: &mut Vec<u8>,
) -> Result<Played, ReplayFault> {
    in_sql_within(alloc, hasher, script, written, LIMITS)
}

/// The same with these limits.
fn in_sql_within(
    alloc: Global,
    hasher: RandomState,
    script: &str,
    written: &mut Vec<u8>,
    limits: Limits,
) -> Result<Played, ReplayFault>
    requires within { AreWithin (unasked limits) }
{
    let Ok(conn) = Connection::open_in_memory(alloc) else {
        return Err(ReplayFault::Memory);
    };
    let mut reader = script.as_bytes();
    match SqlKeep::new(alloc, conn) {
        Ok(keep) => replay_over(alloc, keep, hasher, &mut reader, written, limits),
        Err((_, store)) => {
            drop(store);
            Err(ReplayFault::Store)
        }
    }
}

/// The same over a store whose device fails once, after so many steps.
pub(crate) fn over_faulty(
    alloc: Global,
    hasher: RandomState,
    until: u64,
    failure: Failure,
    script: &str,
    written: &mut Vec<u8>,
) -> Result<Played, ReplayFault> {
    let keep = FaultyKeep::new(alloc, until, failure)?;
    let mut reader = script.as_bytes();
    replay_over(alloc, keep, hasher, &mut reader, written, LIMITS)
}

/// Whether a script over the store in memory ends so, with this text.
pub(crate) fn is_so(
    alloc: Global,
    hasher: RandomState,
    script: &str,
    due: Played,
    text: &str,
) -> Result<bool, ReplayFault> {
    let mut written = Vec::new(alloc);
    let played = in_memory(alloc, hasher, script, &mut written);
    let is_text = written.as_slice() == text.as_bytes();
    drop(written);
    Ok(played? == due && is_text)
}

/// The same over a store in SQL.
pub(crate) fn is_so_in_sql(
    alloc: Global,
    hasher: RandomState,
    script: &str,
    due: Played,
    text: &str,
) -> Result<bool, ReplayFault> {
    let mut written = Vec::new(alloc);
    let played = in_sql(alloc, hasher, script, &mut written);
    let is_text = written.as_slice() == text.as_bytes();
    drop(written);
    Ok(played? == due && is_text)
}

/// Whether a script with these limits comes to this text, over each store.
pub(crate) fn is_so_within(
    alloc: Global,
    hasher: RandomState,
    limits: Limits,
    script: &str,
    text: &str,
) -> Result<bool, ReplayFault>
    requires within { AreWithin (unasked limits) }
{
    let mut written = Vec::new(alloc);
    let mut reader = script.as_bytes();
    let played = replay(alloc, hasher, &mut reader, &mut written, limits);
    let is_text = written.as_slice() == text.as_bytes();
    drop(written);
    let mut written = Vec::new(alloc);
    let again = in_sql_within(alloc, hasher, script, &mut written, limits);
    let is_text_again = written.as_slice() == text.as_bytes();
    drop(written);
    let is_whole = played? == Played::Whole;
    Ok(is_whole && is_text && again? == Played::Whole && is_text_again)
}
