//! What is done with a store: sessions with copies, messages at QoS 2, single commits (4.1, 4.3.3).
ghost use Rattle.std.specs.Prelude.{OnOk};

use crate::sql::changes::Maker;
use mqtt_base::Phase;
use mqtt_keep::{Keep, KeepError};
use mqtt_records::{Change, Counter};
use std::alloc::Global;
use std::time::{Clock, Duration};

/// How many sessions, copies and publications a store has.
pub(crate) fn counts<K: Keep>(keep: &mut K, alloc: Global) -> Result<(usize, usize, u64), KeepError>
    ensures { OnOk result (K.Keep.is_loaded keep.new) }
{
    let records = keep.load(alloc)?;
    let mut copies = 0_usize;
    for session in records.sessions.as_slice() {
        copies = copies.wrapping_add(session.get().queue.len());
    }
    let found = (records.sessions.len(), copies, records.publications);
    drop(records);
    Ok(found)
}

/// Makes one change.
fn make<K: Keep>(keep: &mut K, change: Change) -> Result<(), KeepError>
    requires { K.Keep.is_loaded keep.old }
    ensures { OnOk result (K.Keep.is_loaded keep.new) }
{
    let changes = [change];
    let answer = keep.apply(&changes);
    drop(changes);
    answer
}

/// Puts a session with so many copies.
fn put_session<K: Keep>(
    keep: &mut K,
    maker: &Maker,
    birth: u64,
    copies: u64,
) -> Result<(), KeepError>
    requires { K.Keep.is_loaded keep.old }
    ensures { OnOk result (K.Keep.is_loaded keep.new) }
{
    let mut changes = Vec::new(maker.alloc());
    let answer = match maker.add_session(&mut changes, birth, copies) {
        Ok(()) => keep.apply(&changes),
        Err(_) => Err(KeepError::Memory),
    };
    drop(changes);
    answer
}

fn set<K: Keep>(keep: &mut K, counter: Counter, value: u64) -> Result<(), KeepError>
    requires { K.Keep.is_loaded keep.old }
    ensures { OnOk result (K.Keep.is_loaded keep.new) }
{
    make(keep, Change::SetCounter { counter, value })
}

/// Loads a store and puts so many sessions, each with so many copies.
pub(crate) fn fill<K: Keep>(
    keep: &mut K,
    maker: &Maker,
    sessions: u64,
    copies: u64,
) -> Result<(), KeepError>
    ensures { OnOk result (K.Keep.is_loaded keep.new) }
{
    let _before = counts(keep, maker.alloc())?;
    for birth in 1..=sessions {
        put_session(keep, maker, birth, copies)?;
    }
    set(keep, Counter::Births, sessions)?;
    set(keep, Counter::Publications, copies)
}

/// A publication of session 2 is accepted, with its copy for session 1.
fn accept<K: Keep>(keep: &mut K, maker: &Maker, turn: u64) -> Result<(), KeepError>
    requires { K.Keep.is_loaded keep.old }
    ensures { OnOk result (K.Keep.is_loaded keep.new) }
{
    let copy = maker.copy(1, turn)?;
    let changes = [
        Change::SetCounter {
            counter: Counter::Publications,
            value: turn,
        },
        Change::SetCounter {
            counter: Counter::Moment,
            value: turn,
        },
        Change::PutInbound {
            birth: 2,
            identifier: 10,
        },
        copy,
    ];
    let answer = keep.apply(&changes);
    drop(changes);
    answer
}

/// The copy of a publication comes into a phase.
fn set_copy<K: Keep>(keep: &mut K, place: u64, phase: Phase) -> Result<(), KeepError>
    requires { K.Keep.is_loaded keep.old }
    ensures { OnOk result (K.Keep.is_loaded keep.new) }
{
    make(
        keep,
        Change::SetCopy {
            birth: 1,
            place,
            phase,
        },
    )
}

/// A step of a message: it is accepted (0), sent (1), released by its publisher (2) and by its receiver (3), ended (4).
fn step<K: Keep>(keep: &mut K, maker: &Maker, turn: u64, at: u32) -> Result<(), KeepError>
    requires { K.Keep.is_loaded keep.old }
    ensures { OnOk result (K.Keep.is_loaded keep.new) }
{
    match at {
        0 => accept(keep, maker, turn),
        1 => set_copy(keep, turn, Phase::Sent { identifier: 1 }),
        2 => make(
            keep,
            Change::RemoveInbound {
                birth: 2,
                identifier: 10,
            },
        ),
        3 => set_copy(
            keep,
            turn,
            Phase::Released {
                identifier: 1,
                order: 1,
            },
        ),
        _ => make(
            keep,
            Change::RemoveCopy {
                birth: 1,
                place: turn,
            },
        ),
    }
}

/// The five steps of a message.
fn message<K: Keep>(keep: &mut K, maker: &Maker, turn: u64) -> Result<(), KeepError>
    requires { K.Keep.is_loaded keep.old }
    ensures { OnOk result (K.Keep.is_loaded keep.new) }
{
    for at in 0..5_u32 {
        step(keep, maker, turn, at)?;
    }
    Ok(())
}

/// Makes the steps of so many messages from session 2 to session 1; answers how long the longest took.
pub(crate) fn messages<K: Keep>(
    rt: &impl Clock,
    keep: &mut K,
    maker: &Maker,
    count: u64,
) -> anyhow::Result<Duration> {
    fill(keep, maker, 2, 0)?;
    let mut longest = Duration::ZERO;
    for turn in 1..=count {
        let begun = rt.monotonic()?;
        message(keep, maker, turn)?;
        let took = rt.monotonic()?.saturating_sub(begun);
        if took > longest {
            longest = took;
        }
    }
    Ok(longest)
}

/// Commits so many moments, one after the other; answers how long the longest commit took.
pub(crate) fn commits<K: Keep>(
    rt: &impl Clock,
    keep: &mut K,
    maker: &Maker,
    count: u64,
) -> anyhow::Result<Duration> {
    let _before = counts(keep, maker.alloc())?;
    let mut longest = Duration::ZERO;
    for moment in 1..=count {
        let begun = rt.monotonic()?;
        set(keep, Counter::Moment, moment)?;
        let took = rt.monotonic()?.saturating_sub(begun);
        if took > longest {
            longest = took;
        }
    }
    Ok(longest)
}
