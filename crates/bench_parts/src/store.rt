//! Makes changes one at a time in the store in memory, and tells the time; or has copies wait in it. For bench/store/run. Words: how
//! many changes of each kind; or `waiting`, how many sessions, how many copies in each, and the bytes of a message.

use anyhow::Context;
use bytes::Bytes;
use mqtt_base::{Cause, CopyId, Phase, Qos, Text};
use mqtt_keep::{Keep, KeepError, MemKeep};
use mqtt_records::{
    Boxed, Change, Columns, Content, CopyRow, MessageCopy, PassedOn, Records, SessionRow,
    SubscriptionIdentifiers,
};
use std::alloc::{AllocError, Global};
use std::time::{CpuClock, Duration};

/// How many changes of each kind are made if the words give no other number.
const DEFAULT_CHANGES: u64 = 1_000;

/// How many copies wait in each session but the one that is changed.
const OTHER_COPIES: u64 = 10;

/// The sizes that are compared: sessions, and copies in the queue of the one that is changed.
const SIZES: [(u64, u64); 6] = [
    (10, 10),
    (10, 100),
    (10, 1_000),
    (1_000, 10),
    (1_000, 100),
    (1_000, 1_000),
];

/// How many sessions, how many copies in each, and the bytes of a message.
#[derive(Clone, Copy)]
struct Waiting {
    sessions: u64,
    copies: u64,
    bytes: u64,
}

fn text(alloc: Global, text: &str) -> anyhow::Result<Text> {
    anyhow::ensure!(Text::may_hold(text), "no text");
    Ok(Text::new(alloc, text)?)
}

/// A copy of a publication for a session.
fn copy_of(
    alloc: Global,
    birth: u64,
    publication: u64,
    content: &Content,
) -> Result<MessageCopy, AllocError> {
    let content = content.clone()?;
    Ok(MessageCopy {
        id: CopyId {
            publication,
            birth,
            cause: Cause::Direct,
        },
        qos: Qos::ExactlyOnce,
        retain: false,
        identifiers: SubscriptionIdentifiers::new(alloc),
        content,
    })
}

/// A copy that waits at a place.
fn put_copy(
    alloc: Global,
    birth: u64,
    place: u64,
    content: &Content,
) -> Result<Change, AllocError> {
    let copy = copy_of(alloc, birth, place, content)?;
    let Ok(row) = CopyRow::new(alloc, place, Phase::Waiting, copy) else {
        return Err(AllocError);
    };
    Ok(Change::PutCopy {
        birth,
        row: Boxed::new(alloc, row)?,
    })
}

/// A new session that is connected.
fn put_session(alloc: Global, birth: u64, client: &Text) -> Result<Change, AllocError> {
    let client = client.clone()?;
    let columns = Columns {
        birth,
        client,
        expiry: 60,
        closed: None,
    };
    Ok(Change::PutSession {
        row: SessionRow::new(alloc, columns)?,
    })
}

/// Puts so many sessions; the session `birth` has so many copies, the others a few.
fn fill(
    records: &mut Records,
    alloc: Global,
    sessions: u64,
    birth: u64,
    copies: u64,
    content: &Content,
) -> Result<(), AllocError> {
    for other in 1..=sessions {
        records.change(put_session(alloc, other, &content.topic)?);
        let places = if other == birth { copies } else { OTHER_COPIES };
        for place in 1..=places {
            records.change(put_copy(alloc, other, place, content)?);
        }
    }
    Ok(())
}

/// A store of so many sessions.
fn stock_of(
    alloc: Global,
    sessions: u64,
    birth: u64,
    copies: u64,
    content: &Content,
) -> Result<MemKeep, AllocError> {
    let mut records = Records::new(alloc)?;
    let filled = fill(&mut records, alloc, sessions, birth, copies, content);
    let keep = MemKeep::with(alloc, records);
    match filled {
        Ok(()) => Ok(keep),
        Err(fault) => {
            drop(keep);
            Err(fault)
        }
    }
}

/// A new session for each birth.
fn all_come(keep: &mut MemKeep, alloc: Global, sessions: u64, client: &Text) -> anyhow::Result<()> {
    for birth in 1..=sessions {
        make(keep, put_session(alloc, birth, client)?)?;
    }
    Ok(())
}

/// A message enters the queue of each session, all at once, as by the broker.
fn enter_all(
    keep: &mut MemKeep,
    alloc: Global,
    sessions: u64,
    place: u64,
    content: &Content,
) -> anyhow::Result<()> {
    let mut changes = Vec::new(alloc);
    for birth in 1..=sessions {
        changes.push(put_copy(alloc, birth, place, content)?)?;
    }
    let made = keep.apply(changes.as_slice());
    drop(changes);
    Ok(made?)
}

/// Puts so many sessions, and so many messages of so many bytes, each of which waits in all of them.
fn fill_all(keep: &mut MemKeep, alloc: Global, waiting: Waiting) -> anyhow::Result<()> {
    let topic = text(alloc, "q")?;
    all_come(keep, alloc, waiting.sessions, &topic)?;
    for place in 1..=waiting.copies {
        let content = message_of(alloc, &topic, waiting.bytes)?;
        enter_all(keep, alloc, waiting.sessions, place, &content)?;
        drop(content);
    }
    drop(topic);
    Ok(())
}

/// A message of so many bytes.
fn message_of(alloc: Global, topic: &Text, bytes: u64) -> anyhow::Result<Content> {
    let mut payload = Vec::new(alloc);
    for _ in 0..bytes {
        payload.push(0x2a)?;
    }
    let shared = Bytes::copy_from_slice(alloc, payload.as_slice())?;
    drop(payload);
    Ok(Content {
        topic: topic.clone()?,
        properties: PassedOn::new(),
        payload: shared,
        arrived: 0,
    })
}

/// Has copies wait in a store, and says how many on standard output.
fn wait(rt: &impl Print, alloc: Global, waiting: Waiting) -> anyhow::Result<()> {
    let mut keep = MemKeep::new(alloc)?;
    let filled = fill_all(&mut keep, alloc, waiting);
    drop(keep);
    filled?;
    println!(rt;
        "waiting sessions={} copies={} bytes={}",
        waiting.sessions, waiting.copies, waiting.bytes
    )?;
    Ok(())
}

/// Makes one change.
fn make(keep: &mut MemKeep, change: Change) -> Result<(), KeepError> {
    let changes = [change];
    let made = keep.apply(&changes);
    drop(changes);
    made
}

/// Sets phases, a copy after the other.
fn set_copies(keep: &mut MemKeep, birth: u64, copies: u64, changes: u64) -> Result<(), KeepError> {
    for turn in 0..changes {
        let place = match turn.checked_rem(copies) {
            Some(place) => place.wrapping_add(1),
            None => 1,
        };
        let phase = Phase::Sent { identifier: 7 };
        make(
            keep,
            Change::SetCopy {
                birth,
                place,
                phase,
            },
        )?;
    }
    Ok(())
}

/// Removes the oldest copy and puts a new one, turn about.
fn pass_copies(
    keep: &mut MemKeep,
    alloc: Global,
    birth: u64,
    copies: u64,
    changes: u64,
    content: &Content,
) -> Result<(), KeepError> {
    for turn in 0..changes / 2 {
        let oldest = turn.wrapping_add(1);
        make(
            keep,
            Change::RemoveCopy {
                birth,
                place: oldest,
            },
        )?;
        let newest = oldest.wrapping_add(copies);
        make(keep, put_copy(alloc, birth, newest, content)?)?;
    }
    Ok(())
}

/// Opens and closes an identifier, turn about.
fn pass_identifiers(keep: &mut MemKeep, birth: u64, changes: u64) -> Result<(), KeepError> {
    let identifier = 7;
    for _ in 0..changes / 2 {
        make(keep, Change::PutInbound { birth, identifier })?;
        make(keep, Change::RemoveInbound { birth, identifier })?;
    }
    Ok(())
}

/// Closes and resumes a session, turn about, by its columns alone.
fn pass_columns(
    keep: &mut MemKeep,
    birth: u64,
    changes: u64,
    content: &Content,
) -> Result<(), KeepError> {
    for turn in 0..changes {
        let client = content.topic.clone()?;
        let closed = if turn % 2 == 0 { Some(turn) } else { None };
        let row = Columns {
            birth,
            client,
            expiry: 60,
            closed,
        };
        make(keep, Change::SetSession { row })?;
    }
    Ok(())
}

/// Prints what was changed on standard output, and the seconds that it took on standard error.
fn report(
    rt: &(impl Print + Eprint),
    name: &str,
    sessions: u64,
    copies: u64,
    changes: u64,
    time: Duration,
) -> anyhow::Result<()> {
    println!(rt; "{name} sessions={sessions} copies={copies} changes={changes}")?;
    eprintln!(rt;
        "{name} {sessions} {copies} {changes} {}.{:09}",
        time.as_secs(),
        time.subsec_nanos()
    )?;
    Ok(())
}

/// Makes changes of each kind in a store and tells the time of each kind.
fn measure(
    rt: &(impl Print + Eprint + CpuClock),
    keep: &mut MemKeep,
    alloc: Global,
    sessions: u64,
    copies: u64,
    changes: u64,
    content: &Content,
) -> anyhow::Result<()> {
    let birth = sessions / 2;
    let start = rt.process_cpu_time()?;
    set_copies(keep, birth, copies, changes)?;
    let set = rt.process_cpu_time()?;
    pass_copies(keep, alloc, birth, copies, changes, content)?;
    let passed = rt.process_cpu_time()?;
    pass_identifiers(keep, birth, changes)?;
    let opened = rt.process_cpu_time()?;
    pass_columns(keep, birth, changes, content)?;
    let closed = rt.process_cpu_time()?;
    let phase = set.saturating_sub(start);
    report(rt, "phase", sessions, copies, changes, phase)?;
    let copy = passed.saturating_sub(set);
    report(rt, "copy", sessions, copies, changes, copy)?;
    let identifier = opened.saturating_sub(passed);
    report(rt, "identifier", sessions, copies, changes, identifier)?;
    let columns = closed.saturating_sub(opened);
    report(rt, "columns", sessions, copies, changes, columns)
}

/// Measures stores of all sizes.
fn measure_all(
    rt: &(impl Print + Eprint + CpuClock),
    alloc: Global,
    changes: u64,
    content: &Content,
) -> anyhow::Result<()> {
    for (sessions, copies) in SIZES {
        let mut keep = stock_of(alloc, sessions, sessions / 2, copies, content)?;
        let measured = measure(rt, &mut keep, alloc, sessions, copies, changes, content);
        drop(keep);
        measured?;
    }
    Ok(())
}

/// The number that a word says, or this one if there is no word.
fn number(word: Option<&String>, other: u64) -> anyhow::Result<u64> {
    match word {
        Some(word) => word.parse::<u64>().context("a number"),
        None => Ok(other),
    }
}

/// What the words ask for behind `waiting`.
fn waiting_of(words: &[String]) -> anyhow::Result<Waiting> {
    let sessions = number(words.get(1), 3)?;
    let copies = number(words.get(2), 40)?;
    let bytes = number(words.get(3), 200)?;
    Ok(Waiting {
        sessions,
        copies,
        bytes,
    })
}

fn content_of(alloc: Global) -> anyhow::Result<Content> {
    let topic = text(alloc, "a/b")?;
    let payload = Bytes::copy_from_slice(alloc, b"12345")?;
    Ok(Content {
        topic,
        properties: PassedOn::new(),
        payload,
        arrived: 0,
    })
}

/// Makes changes of each kind in stores of all sizes.
fn run_changes(rt: &HostRuntime, words: &[String]) -> anyhow::Result<()> {
    let changes = number(words.first(), DEFAULT_CHANGES)?;
    let content = content_of(rt.alloc())?;
    let measured = measure_all(rt, rt.alloc(), changes, &content);
    drop(content);
    measured
}

/// Does what the words ask for; a little of both if there is none.
pub(crate) fn run(rt: &HostRuntime, words: &[String]) -> anyhow::Result<()> {
    match words.first().map_or("", |word| word.as_str()) {
        "waiting" => wait(rt, rt.alloc(), waiting_of(words)?),
        "" => {
            run_changes(rt, words)?;
            wait(rt, rt.alloc(), waiting_of(words)?)
        }
        _ => run_changes(rt, words),
    }
}
